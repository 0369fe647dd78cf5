// The operation that is cut, and what it leaves of each page.
ghost use Rattle.std.specs.Prelude.{◌≡◌, ◌≤◌, IfOk, OnOk, OnErr, map};
ghost use Rattle.rand_core.specs.Stream.{next_u64};
ghost use Rattle.exerciser.specs.Words.{answers, operation_of, fate_of, next_words};

use nand_model::Fate;
use rand_core::Rng;
use rand_pcg::Lcg128Xsl64;
use std::alloc::{AllocError, Global};

/// The fate that a word draws.
fn fate_of(word: u64) -> Fate
    ensures { result ≡ fate_of word }
{
    match word % 4 {
        0 => Fate::Old,
        1 => Fate::New,
        2 => Fate::Erased,
        _ => Fate::Uncorrectable,
    }
}

/// Draws the operation that is cut, from 1 to `operations`, by the generator's next word, and by each word after it the
/// fate of a page. Where memory is refused no word is taken.
pub fn draw(
    alloc: Global,
    generator: &mut Lcg128Xsl64,
    operations: u64,
    pages: u32,
) -> Result<(u64, Vec<Fate>), AllocError>
    requires { 1 ≤ operations }
    ensures operation { IfOk result (λ random. random.0 ≡ operation_of operations (next_u64 (answers generator.old)).0) }
    ensures fates { IfOk result (λ random. random.1.items ≡ map fate_of (next_words pages (next_u64 (answers generator.old)).1).0) }
    ensures left { OnOk result (answers generator.new ≡ (next_words pages (next_u64 (answers generator.old)).1).1) }
    ensures refused { OnErr result (generator.new ≡ generator.old) }
{
    let mut fates = Vec::with_capacity(alloc, pages as usize)?;
    let operation = 1 + generator.next_u64() % operations;
    for _page in 0..pages {
        fates.push(fate_of(generator.next_u64()))?;
    }
    Ok((operation, fates))
}
