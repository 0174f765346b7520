//! Scripts that were worked by hand.

/// A script, what it prints, and which of its messages are the same bytes.
#[derive(Drop)]
pub struct Worked {
    pub name: &'static str,
    pub script: &'static str,
    /// What is printed of its patterns, first, and behind them of its other commands.
    pub patterns: &'static str,
    pub printed: &'static str,
    /// The numbers of messages of the same bytes, and how many bytes each of them has.
    pub equal: &'static [u64],
    pub bytes: usize,
}

/// A script without patterns or messages of the same bytes, for rows to begin with.
const BARE: Worked = Worked {
    name: "",
    script: "",
    patterns: "",
    printed: "",
    equal: &[],
    bytes: 0,
};

/// A script with most commands.
pub static MIXED: Worked = Worked {
    script: "rule /2/3\nreplicas 2\npattern a\nx = 2, y = 1\nAB!\nend\ncopy 1 a 4 4\n\
        cells 1 0 0 2\nstate 1\ndeliver 1 2\nshow 2 0 0\nshow 2 5 4\nclear 2 0 0 2 2\nor 2 b 0 0\n\
        delta 2 0 1\ndump 2\nexport 2 1\n",
    patterns: "pattern a 2 1 2 0 0 0\n",
    printed: "drawn 1 1\ndrawn 2 1\nsent 1\ntaken\ncell 2 2 1\n\
        cell 2 1 1\ndrawn 3 2\nrefused 38 NoPattern\nsent 2\n\
        474c574401042f322f33000000010000000000030002014000000040000000000000020000000200000000\n\
        #CXRLE Pos=4,4 Gen=1\nx = 1, y = 1, rule = /2/3\nB!\n",
    ..BARE
};

pub static WORKED: [Worked; 9] = [
    Worked {
        name: "two writes with one counter",
        script: "rule /2/3\nreplicas 2\ncells 1 0 0 1\ncells 2 0 0 2\nstate 1\nstate 2\ndeliver 1 2\n\
            deliver 2 1\nshow 1 0 0\nshow 2 0 0\n",
        printed: "drawn 1 1\ndrawn 1 2\nsent 1\nsent 2\ntaken\ntaken\ncell 2 1 2\ncell 2 1 2\n",
        ..BARE
    },
    Worked {
        name: "both pastes",
        script: "rule /2/3\nreplicas 2\npattern p\nx = 2, y = 1\nA.!\nend\ncells 1 0 0 1 1 0 1\n\
            copy 1 p 0 0\nshow 1 1 0\ncells 2 0 0 1 1 0 1\nor 2 p 0 0\nshow 2 0 0\nshow 2 1 0\n",
        patterns: "pattern p 2 1 1 0 0 0\n",
        printed: "drawn 1 1\ndrawn 2 1\ncell 0 2 1\ndrawn 1 2\ndrawn 2 2\ncell 1 2 2\ncell 1 1 2\n",
        ..BARE
    },
    Worked {
        name: "a clear that came first",
        script: "rule /2/3\nreplicas 2\ncells 1 0 0 1\nclear 1 0 0 8 8\ndelta 1 0 1\ndelta 1 1 1\n\
            deliver 2 2\nstate 2\ndeliver 1 2\nstate 2\nstate 1\nshow 2 0 0\nshow 2 8 8\nsame 1 2\n",
        printed: "drawn 1 1\ndrawn 2 1\nsent 1\nsent 2\ntaken\nsent 3\ntaken\nsent 4\nsent 5\n\
            cell 0 2 1\ncell 0 0 0\nsame\n",
        equal: &[3, 4, 5],
        bytes: 942,
        ..BARE
    },
    Worked {
        name: "messages taken again",
        script: "rule /2/3\nreplicas 2\ncells 1 0 0 1\ndelta 1 0 1\nstate 1\ndeliver 1 2\nstate 2\n\
            deliver 2 2\ndeliver 1 2\ndeliver 1 2\nstate 2\nsame 1 2\ndelta 2 1 1\n",
        printed: "drawn 1 1\nsent 1\nsent 2\ntaken\nsent 3\ntaken\ntaken\ntaken\nsent 4\nsame\n\
            refused 25 NoSuchEdit\n",
        equal: &[2, 3, 4],
        bytes: 1515,
        ..BARE
    },
    Worked {
        name: "a clock that a state moves",
        script: "rule /2/3\nreplicas 2\ncells 1 3 3 1\ncells 1 3 3 1\ncells 1 3 3 1\ncells 1 3 3 1\n\
            cells 1 3 3 1\nstate 1\ndeliver 1 2\ncells 2 3 3 2\nstate 2\ndeliver 2 1\nshow 1 3 3\n",
        printed: "drawn 1 1\ndrawn 2 1\ndrawn 3 1\ndrawn 4 1\ndrawn 5 1\nsent 1\ntaken\ndrawn 6 2\n\
            sent 2\ntaken\ncell 2 6 2\n",
        ..BARE
    },
    Worked {
        name: "Brian's Brain",
        script: "rule /2/3\nreplicas 1\ncells 1 0 0 1 1 0 1\nexport 1 1\nexport 1 2\n",
        printed: "drawn 1 1\n#CXRLE Pos=0,-1 Gen=1\nx = 2, y = 3, rule = /2/3\n2A$2B$2A!\n\
            #CXRLE Pos=-1,-2 Gen=2\nx = 4, y = 5, rule = /2/3\n.2A$.2B$A2.A$.2B$.2A!\n",
        ..BARE
    },
    Worked {
        name: "the first and the last generation",
        script: "rule /2/3\nreplicas 1\nexport 1 0\nexport 1 536870912\nexport 1 536870913\n",
        printed: "#CXRLE Pos=0,0 Gen=0\nx = 0, y = 0, rule = /2/3\n!\n\
            #CXRLE Pos=0,0 Gen=536870912\nx = 0, y = 0, rule = /2/3\n!\nrefused 22 GenRange\n",
        ..BARE
    },
    Worked {
        name: "a blinker at the plane's edge",
        script: "rule 23/3/2\nreplicas 1\ncells 1 1073741823 -1073741824 1 1073741823 -1073741823 1 \
            1073741823 -1073741822 1\nexport 1 0\nexport 1 1\nexport 1 3\n",
        printed: "drawn 1 1\n#CXRLE Pos=1073741823,-1073741824 Gen=0\nx = 1, y = 3, rule = 23/3/2\n\
            o$o$o!\n#CXRLE Pos=1073741822,-1073741823 Gen=1\nx = 3, y = 1, rule = 23/3/2\n3o!\n\
            #CXRLE Pos=1073741822,-1073741823 Gen=3\nx = 3, y = 1, rule = 23/3/2\n3o!\n",
        ..BARE
    },
    Worked {
        name: "refused draws",
        script: "rule 345/2/4\nreplicas 1\npattern d\nx = 2, y = 1\n2.!\nend\nor 1 d 0 0\n\
            cells 1 1073741824 0 1\ncells 1 0 0 4\nshow 1 0 0\ncells 1 0 0 3\n",
        patterns: "pattern d 2 1 0 0 0 0\n",
        printed: "refused 9 Nothing\nrefused 10 OutOfPlane\nrefused 11 StateRange\ncell 0 0 0\n\
            drawn 1 1\n",
        ..BARE
    },
];
