//! Scripts that export.

use crate::printed::Printed;
use crate::runs::run;
use std::alloc::AllocError;

static EXPORTS: [Printed; 4] = [
    // Two cells flicker.
    Printed {
        script: "rule /2/3\nreplicas 1\ncells 1 0 0 1 1 0 1\nexport 1 1\nexport 1 2\n",
        printed: "drawn 1 1\n\
        #CXRLE Pos=0,-1 Gen=1\nx = 2, y = 3, rule = /2/3\n2A$2B$2A!\n\
        #CXRLE Pos=-1,-2 Gen=2\nx = 4, y = 5, rule = /2/3\n.2A$.2B$A2.A$.2B$.2A!\n",
    },
    // Nothing is exported up to the last generation.
    Printed {
        script: "rule /2/3\nreplicas 1\nexport 1 0\nexport 1 536870912\nexport 1 536870913\n\
        export 2 536870913\nexport 0 0\n",
        printed: "#CXRLE Pos=0,0 Gen=0\nx = 0, y = 0, rule = /2/3\n!\n\
        #CXRLE Pos=0,0 Gen=536870912\nx = 0, y = 0, rule = /2/3\n!\n\
        refused 22 GenRange\nrefused 26 NoReplica\nrefused 26 NoReplica\n",
    },
    // Cells leave the plane.
    Printed {
        script: "rule 23/3/2\nreplicas 1\ncells 1 1073741823 -1073741824 1 1073741823 -1073741823 1 \
        1073741823 -1073741822 1\nexport 1 0\nexport 1 1\nexport 1 3\n",
        printed: "drawn 1 1\n\
        #CXRLE Pos=1073741823,-1073741824 Gen=0\nx = 1, y = 3, rule = 23/3/2\no$o$o!\n\
        #CXRLE Pos=1073741822,-1073741823 Gen=1\nx = 3, y = 1, rule = 23/3/2\n3o!\n\
        #CXRLE Pos=1073741822,-1073741823 Gen=3\nx = 3, y = 1, rule = 23/3/2\n3o!\n",
    },
    // Two draw apart and exchange deltas; then both export alike, whatever is drawn in between.
    Printed {
        script: "rule 23/3/2\nreplicas 2\ncells 1 0 0 1 1 0 1\ncells 2 2 0 1\nexport 2 1\n\
        delta 1 0 1\ndelta 2 0 1\ndeliver 1 2\ndeliver 2 1\nexport 1 1\nexport 2 1\n\
        clear 1 1 0 1 1\nexport 1 0\nexport 2 0\n",
        printed: "drawn 1 1\ndrawn 1 2\n\
        #CXRLE Pos=0,0 Gen=1\nx = 0, y = 0, rule = 23/3/2\n!\n\
        sent 1\nsent 2\ntaken\ntaken\n\
        #CXRLE Pos=1,-1 Gen=1\nx = 1, y = 3, rule = 23/3/2\no$o$o!\n\
        #CXRLE Pos=1,-1 Gen=1\nx = 1, y = 3, rule = 23/3/2\no$o$o!\n\
        drawn 2 1\n\
        #CXRLE Pos=0,0 Gen=0\nx = 3, y = 1, rule = 23/3/2\nobo!\n\
        #CXRLE Pos=0,0 Gen=0\nx = 3, y = 1, rule = 23/3/2\n3o!\n",
    },
];

#[test]
fn exports_are_printed(rt: HostRuntime) -> Result<(), AllocError> {
    for case in &EXPORTS {
        assert_eq!(rt;
            run(rt.alloc(), case.script.as_bytes())?.as_str(),
            case.printed
        );
    }
    Ok(())
}
