//! Scripts that name patterns, paste them and clear areas, from end to end.

use crate::printed::Printed;
use crate::runs::run;
use std::alloc::AllocError;

static PATTERNS: [Printed; 6] = [
    // Copy writes dead cells and or does not.
    Printed {
        script: "rule /2/3\nreplicas 2\npattern p\nx = 2, y = 1\nA.!\nend\ncells 1 0 0 1 1 0 1\n\
        copy 1 p 0 0\nshow 1 1 0\ncells 2 0 0 1 1 0 1\nor 2 p 0 0\nshow 2 0 0\nshow 2 1 0\n",
        printed: "pattern p 2 1 1 0 0 0\ndrawn 1 1\ndrawn 2 1\ncell 0 2 1\ndrawn 1 2\ndrawn 2 2\n\
        cell 1 2 2\ncell 1 1 2\n",
    },
    // Pastes are refused in order.
    Printed {
        script: "rule 345/2/4\nreplicas 1\npattern d\nx = 2, y = 1\n2.!\nend\nor 1 d 0 0\n\
        cells 1 1073741824 0 1\ncells 1 0 0 4\nshow 1 0 0\ncells 1 0 0 3\ncopy 2 d 0 0\n",
        printed: "pattern d 2 1 0 0 0 0\nrefused 9 Nothing\nrefused 10 OutOfPlane\n\
        refused 11 StateRange\ncell 0 0 0\ndrawn 1 1\nrefused 26 NoReplica\n",
    },
    // Clears reach their last row.
    Printed {
        script: "rule /2/3\nreplicas 1\nclear 1 -4 -4 9 9\nshow 1 4 4\nshow 1 5 5\nclear 1 0 0 0 3\n\
        clear 1 0 0 4097 1\nclear 1 1073741823 0 2 1\ncopy 1 q 0 0\n",
        printed: "drawn 1 1\ncell 0 1 1\ncell 0 0 0\nrefused 9 Nothing\ndrawn 2 1\n\
        refused 10 OutOfPlane\nrefused 38 NoPattern\n",
    },
    // What is no pattern is refused.
    Printed {
        script: "rule /2/3\nreplicas 0\npattern a\nx = 3\no!\nend\npattern a\nx = 3, y = 1\np!\nend\n\
        pattern a\nx = 3, y = 1\n0o!\nend\npattern a\nx = 3, y = 1\nyP!\nend\n\
        pattern a\nx = 0, y = 0\n1048577o!\nend\n",
        printed: "refused 4 Header\nrefused 5 Tag 14\nrefused 6 Count 13\nrefused 7 State 13\n\
        refused 8 TooMany\n",
    },
    // Refused patterns leave their names.
    Printed {
        script: "rule /2/3\nreplicas 1\npattern a\nx = 3, y = 1\np!\nend\nor 1 a 0 0\n\
        pattern a\n#CXRLE Pos=-1,2 Gen=7\nx = 1, y = 1\nA!\nend\npattern a\nx = 3, y = 1\np!\nend\n\
        or 1 a 5 6\nshow 1 5 6\npattern a\nx = 1, y = 1\nB!\nend\ncopy 1 a 5 6\nshow 1 5 6\n",
        printed: "refused 5 Tag 14\nrefused 38 NoPattern\npattern a 1 1 1 -1 2 7\nrefused 5 Tag 14\n\
        drawn 1 1\ncell 1 1 1\npattern a 1 1 1 0 0 0\ndrawn 2 1\ncell 2 2 1\n",
    },
    // Wide patterns are pasted in both ways.
    Printed {
        script: "rule /2/3\nreplicas 1\npattern w\nx = 0, y = 0\n4097o!\nend\ncopy 1 w 0 0\n\
        or 1 w 0 0\nshow 1 4096 0\nshow 1 4097 0\npattern none\nx = 0, y = 0\n!\nend\ncopy 1 none 0 0\n",
        printed: "pattern w 4097 1 4097 0 0 0\ndrawn 1 1\ndrawn 2 1\ncell 1 2 1\ncell 0 0 0\n\
        pattern none 0 0 0 0 0 0\nrefused 9 Nothing\n",
    },
];

#[test]
fn patterns_are_pasted_and_areas_cleared(rt: HostRuntime) -> Result<(), AllocError> {
    for case in &PATTERNS {
        assert_eq!(rt;
            run(rt.alloc(), case.script.as_bytes())?.as_str(),
            case.printed
        );
    }
    Ok(())
}
