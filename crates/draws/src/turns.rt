//! Words that a number draws, and whose turn it is by them.
ghost use Rattle.std.specs.Prelude.{◌≡◌, ◌<◌, ◌≤◌, IfOk, length};
ghost use Rattle.std.specs.List.{AllByRecursion};
ghost use Rattle.draws.specs.Draws.{draws, schedule};

use mss_base::NoMemory;
use rand_core::SeedableRng;
use rand_core::utils::NextWord;
use rand_pcg::Lcg64Xsh32;
use std::alloc::Global;

/// The first words of 32 bits that a number draws.
pub fn draws(alloc: Global, order: u64, count: u32) -> Result<Vec<u32>, NoMemory>
    ensures words { IfOk result (λ words. words.items ≡ draws order count) }
    ensures count { IfOk result (λ words. length words.items ≡ count) }
{
    let mut generator = Lcg64Xsh32::seed_from_u64(order);
    let mut words = Vec::with_capacity(alloc, count as usize)?;
    for _ in 0..count {
        words.push(generator.next_word())?;
    }
    Ok(words)
}

/// Which of the actors, counted from 0, is next at each of so many turns, as `order` draws them.
pub fn schedule(alloc: Global, order: u64, turns: u32, actors: u32) -> Result<Vec<u32>, NoMemory>
    requires { 1 ≤ actors }
    ensures turns { IfOk result (λ drawn. drawn.items ≡ schedule order turns actors) }
    ensures count { IfOk result (λ drawn. length drawn.items ≡ turns) }
    ensures within { IfOk result (λ drawn. AllByRecursion (λ actor. actor < actors) drawn.items) }
{
    let words = draws(alloc, order, turns)?;
    let drawn = words.iter().map(|word| *word % actors).collect(alloc)?;
    Ok(drawn)
}
