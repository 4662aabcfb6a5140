//! Reports and certificates that another program gave of the texts, at each order and in both modes.
use crate::ports::{SURE, output_of};
use crate::texts::{DIPOLES, MIXED, POLES, VORTICES};
use fmm_program::Status;
use std::alloc::Global;
use std::process::Abort;
use std::test::Fail;
use std::thread::Threads;

/// What is known of a text.
#[derive(Clone, Copy)]
pub struct Known<'a> {
    /// Lines with their numbers from 0.
    pub lines: &'a [(usize, &'a str)],
    /// How many lines and bytes it has.
    pub size: (usize, usize),
}

/// The text has these lines and this size.
pub fn is_known(rt: &impl Abort, bytes: &[u8], known: &Known<'_>) -> Result<(), Fail> {
    let text = str::from_utf8(bytes)?;
    for &(number, line) in known.lines {
        assert_eq!(rt; text.lines().nth(number), Some(line));
    }
    assert_eq!(rt; (text.lines().count(), text.len()), known.size);
    Ok(())
}

/// What is known of a solve: of its report the first two lines, that of a target with entries of all four letters, and the
/// last three; of its certificate the first line, lines of each section, and the last.
#[derive(Clone, Copy)]
struct Solve<'a> {
    order: &'a str,
    cap: &'a str,
    report: Known<'a>,
    cert: Known<'a>,
}

/// A solve of the text writes what is known.
fn solves(
    rt: &(impl Abort + Threads + Sync),
    alloc: Global,
    text: &str,
    known: &Solve<'_>,
) -> Result<(), Fail> {
    let words = ["solve", known.order, known.cap, "-"];
    let outputs = output_of(rt, alloc, &words, text.as_bytes(), SURE, Status::Done)?;
    is_known(rt, outputs.out.held(), &known.report)?;
    is_known(rt, outputs.cert.held(), &known.cert)
}

const MIXED_SOLVES: [Solve<'static>; 2] = [
    Solve {
        order: "4",
        cap: "8",
        report: Known {
            lines: &[
                (0, "fmm report 1 field order 4 cap 8"),
                (
                    1,
                    "target 19857 -20882 re -18.332278932212 53.263848671142 im -77.894022283077 -6.297894679723",
                ),
                (
                    19,
                    "target 19588 -20966 re -15.140499549357 13.452136597636 im -12.789773724628 15.802862422365",
                ),
                (
                    32,
                    "target 19857 -20881 re -213.570830627538 -141.974703024185 im -60.807850661431 10.788276941923",
                ),
                (33, "work translations 150 pairs 210"),
                (34, "end"),
            ],
            size: (35, 3011),
        },
        cert: Known {
            lines: &[
                (0, "fmmcert 1 4 90 32 81 152"),
                (81, "node 71 13 5131 812"),
                (171, "at 75"),
                (204, "m -"),
                (253, "v 4 5"),
                (268, "w 10 59"),
                (288, "x 35 10"),
                (404, "x 80 72"),
                (416, "l -"),
                (
                    486,
                    "t -20156553849599 58564220954021 -85645383234485 -6924608430865 -18332278932212 53263848671142 -77894022283077 -6297894679723",
                ),
                (
                    517,
                    "t -234823611628756 -156102836825136 -66858938862309 11861835941311 -213570830627538 -141974703024185 -60807850661431 10788276941923",
                ),
                (518, "end"),
            ],
            size: (519, 38326),
        },
    },
    Solve {
        order: "24",
        cap: "16",
        report: Known {
            lines: &[
                (0, "fmm report 1 field order 24 cap 16"),
                (
                    1,
                    "target 19857 -20882 re 17.464606787732 17.464691553123 im -42.097650983388 -42.097566217996",
                ),
                (
                    19,
                    "target 19588 -20966 re -0.841779945318 -0.841654710274 im 1.501559902440 1.501685137484",
                ),
                (
                    32,
                    "target 19857 -20881 re -177.775585137809 -177.775500372418 im -25.012060638858 -25.011975873467",
                ),
                (33, "work translations 81 pairs 406"),
                (34, "end"),
            ],
            size: (35, 2969),
        },
        cert: Known {
            lines: &[
                (0, "fmmcert 1 24 90 32 44 72"),
                (44, "node 35 9 411 93"),
                (134, "at 42"),
                (159, "m -"),
                (179, "u 1 1"),
                (181, "w 1 4"),
                (186, "x 4 1"),
                (250, "x 42 34"),
                (260, "l -"),
                (
                    295,
                    "t 19202538237647 19202631438179 -46286856758290 -46286763557757 17464606787732 17464691553123 -42097650983388 -42097566217996",
                ),
                (
                    326,
                    "t -195466322993703 -195466229793171 -27501051507062 -27500958306530 -177775585137809 -177775500372418 -25012060638858 -25011975873467",
                ),
                (327, "end"),
            ],
            size: (328, 77565),
        },
    },
];

#[test]
fn mixed(rt: HostRuntime) -> Result<(), Fail> {
    for known in &MIXED_SOLVES {
        solves(&rt, rt.alloc(), MIXED, known)?;
    }
    Ok(())
}

const DIPOLES_SOLVE: Solve<'static> = Solve {
    order: "8",
    cap: "8",
    report: Known {
        lines: &[
            (0, "fmm report 1 field order 8 cap 8"),
            (
                1,
                "target 385 608 re -15.476169603267 1.470394618999 im -1.900283940264 15.046280282002",
            ),
            (
                19,
                "target 112 1010 re -9.045349916878 9.049783286396 im -9.050110643635 9.045022559639",
            ),
            (
                26,
                "target -285 371 re -12.606422819289 12.548351076378 im -12.556345839548 12.598428056118",
            ),
            (27, "work translations 141 pairs 217"),
            (28, "end"),
        ],
        size: (29, 2360),
    },
    cert: Known {
        lines: &[
            (0, "fmmcert 1 8 70 26 64 157"),
            (64, "node 58 13 4145 4172"),
            (134, "at 23"),
            (165, "m -"),
            (199, "u 3 3"),
            (203, "w 3 20"),
            (213, "x 20 3"),
            (355, "x 63 41"),
            (380, "l -"),
            (
                420,
                "t -17016228432225 1616715981008 -2089384288396 16543560124837 -15476169603267 1470394618999 -1900283940264 15046280282002",
            ),
            (
                445,
                "t -13860908474468 13797057917892 -13805848252959 13852118139401 -12606422819289 12548351076378 -12556345839548 12598428056118",
            ),
            (446, "end"),
        ],
        size: (447, 43554),
    },
};

#[test]
fn dipoles(rt: HostRuntime) -> Result<(), Fail> {
    solves(&rt, rt.alloc(), DIPOLES, &DIPOLES_SOLVE)
}

const VORTICES_SOLVE: Solve<'static> = Solve {
    order: "16",
    cap: "8",
    report: Known {
        lines: &[
            (0, "fmm report 1 velocity order 16 cap 8"),
            (
                1,
                "target -10763 -7331 u -61.852534143218 -61.768949580761 v 165.012097978709 165.095682541167",
            ),
            (
                4,
                "target -3668 -4363 u -6.205361741499 -6.172866785609 v -3.581705592709 -3.549210636819",
            ),
            (
                25,
                "target 10529 -6642 u 1.394337801000 1.405162983686 v -1.473872707864 -1.463047525178",
            ),
            (26, "work translations 124 pairs 216"),
            (27, "end"),
        ],
        size: (28, 2282),
    },
    cert: Known {
        lines: &[
            (0, "fmmcert 1 16 80 25 64 95"),
            (64, "node 58 14 5501 6359"),
            (144, "at 31"),
            (156, "m -"),
            (209, "v 5 8"),
            (220, "w 11 15"),
            (257, "x 37 13"),
            (303, "x 63 59"),
            (325, "l -"),
            (
                368,
                "t -68007580497880 -67915678299557 -181524622649628 -181432720451304 -61852534143218 -61768949580761 -165095682541167 -165012097978709",
            ),
            (
                392,
                "t 1533090625248 1544993039483 1608637765923 1620540180158 1394337801000 1405162983686 1463047525178 1473872707864",
            ),
            (393, "end"),
        ],
        size: (394, 85904),
    },
};

#[test]
fn vortices(rt: HostRuntime) -> Result<(), Fail> {
    solves(&rt, rt.alloc(), VORTICES, &VORTICES_SOLVE)
}

const POLES_SOLVE: Solve<'static> = Solve {
    order: "4",
    cap: "8",
    report: Known {
        lines: &[
            (0, "fmm report 1 field order 4 cap 8"),
            (
                1,
                "target -524288 -485563 re -16.297391905128 5.681952957717 im -7.828066657380 14.151278205466",
            ),
            (
                5,
                "target 444235 -42334 re 0.077640309927 41.742816918358 im 318869.417204967851 318911.082381576283",
            ),
            (
                9,
                "target 492512 114750 re 643999.905254520910 1223180.451909347169 im 1015657.611855139323 1594838.158509965584",
            ),
            (11, "work translations 138 pairs 23"),
            (12, "end"),
        ],
        size: (13, 1041),
    },
    cert: Known {
        lines: &[
            (0, "fmmcert 2 4 60 10 93 30"),
            (93, "node 86 20 1016798 639041"),
            (153, "at 14"),
            (159, "m -"),
            (247, "v 5 7"),
            (264, "w 14 20"),
            (268, "x 20 14"),
            (276, "w 69 92"),
            (279, "l -"),
            (
                374,
                "t 85366423549 45896712577859 350600631959018663 350646443305172973 77640309927 41742816918358 318869417204967851 318911082381576283",
            ),
            (
                378,
                "t 708085384113988062 1344901129742629592 1116727354073929033 1753543099702570565 643999905254520910 1223180451909347169 1015657611855139323 1594838158509965584",
            ),
            (380, "end"),
        ],
        size: (381, 34149),
    },
};

#[test]
fn poles(rt: HostRuntime) -> Result<(), Fail> {
    solves(&rt, rt.alloc(), POLES, &POLES_SOLVE)
}
