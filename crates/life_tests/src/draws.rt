// Draws beside words that were computed elsewhere.
use exerciser::draw;
use nand_model::Fate;
use rand_core::SeedableRng;
use rand_pcg::Lcg128Xsl64;

#[test]
fn three_draws_follow_the_words_of_a_seed(rt: HostRuntime) {
    let mut generator = Lcg128Xsl64::seed_from_u64(1);
    let many = [
        Fate::Uncorrectable,
        Fate::Old,
        Fate::Uncorrectable,
        Fate::Old,
        Fate::Old,
        Fate::New,
        Fate::New,
        Fate::Uncorrectable,
    ];
    let some = [
        Fate::New,
        Fate::Old,
        Fate::Old,
        Fate::Old,
        Fate::Old,
        Fate::Erased,
    ];
    for (operations, pages, operation, fates) in [
        (1000, 8, 800, many.as_slice()),
        (1, 6, 1, some.as_slice()),
        (u64::MAX, 0, 11_629_852_450_240_508_455, &[]),
    ] {
        let chosen = draw(rt.alloc(), &mut generator, operations, pages).expect(&rt, "memory");
        assert_eq!(rt; chosen.0, operation);
        assert_eq!(rt; chosen.1.as_slice(), fates);
    }
}
