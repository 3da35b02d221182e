use sd_base::BadParams::{Bits, Max, Min, Polynomial, Target};
use sd_base::{BadParams, DEFAULT_POLYNOMIAL, Params};

const P: u64 = DEFAULT_POLYNOMIAL;

static CASES: [(u64, u32, u32, u32, u32, Option<BadParams>); 20] = [
    (P, 13, 120, 2048, 65_536, None),
    (0xFFFF, 13, 120, 2048, 65_536, Some(Polynomial)),
    (1 << 16, 13, 120, 2048, 65_536, Some(Polynomial)),
    (1 << 16 | 1, 13, 120, 2048, 65_536, None),
    (1 << 63, 13, 120, 2048, 65_536, Some(Polynomial)),
    (1 << 63 | 1, 13, 120, 2048, 65_536, None),
    (P, 0, 0, 2048, 65_536, Some(Bits)),
    (P, 1, 1, 2048, 65_536, None),
    (P, 16, 65_535, 2048, 65_536, None),
    (P, 16, 65_536, 2048, 65_536, Some(Target)),
    (P, 17, 0, 2048, 65_536, Some(Bits)),
    (P, 13, 120, 47, 65_536, Some(Min)),
    (P, 13, 120, 48, 48, None),
    (P, 13, 120, 49, 48, Some(Max)),
    (P, 13, 120, 2048, 1_048_576, None),
    (P, 13, 120, 2048, 1_048_577, Some(Max)),
    (0, 0, 1, 47, 46, Some(Polynomial)),
    (P, 0, 1, 47, 46, Some(Bits)),
    (P, 1, 2, 47, 46, Some(Target)),
    (P, 1, 1, 47, 46, Some(Min)),
];

#[test]
fn the_first_number_out_of_its_range_is_named(rt: HostRuntime) {
    for (row, &(polynomial, bits, target, min, max, want)) in CASES.iter().enumerate() {
        let found = Params::new(polynomial, bits, target, min, max).err();
        assert!(rt; found == want, "row {row}");
    }
}
