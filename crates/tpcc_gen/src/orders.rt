//! An order for a mix.
ghost use Rattle.std.specs.Prelude.{◌≡◌, ◌≤◌, ◌<◌, ◌+◌, ◌*◌, ◌++◌, ◌∷◌, [], ℕ, All, IfOk, OnOk};
ghost use Rattle.acc_script.specs.OrderLines.{IsPlace};
ghost use Rattle.tpcc_gen.specs.Bounds.{IsScale, IsMix};
ghost use Rattle.tpcc_gen.specs.Mixes.{mix};
ghost use Rattle.tpcc_gen.specs.Orders.{mention, mentions, order_list};

use crate::bounds::MOST_TRANSACTIONS;
use crate::mixes::push_mix;
use crate::scales::Scale;
use crate::words::Words;
use acc_base::sequences::Seq;
use acc_page::Page;
use std::alloc::{AllocError, Global};

/// How often an order mentions a place.
const MENTIONS: u64 = 32;

/// Passes the words of a mix, and keeps nothing of it.
fn pass_mix(alloc: Global, words: &mut Words, scale: Scale, count: u64)
    requires { count ≤ MOST_TRANSACTIONS }
    ensures { words.new ≡ (mix scale.warehouses scale.items scale.customers count words.old).1 }
{
    let mut nothing = Page::new(alloc);
    nothing.cut_off();
    push_mix(&mut nothing, words, scale, count);
}

/// Number j of an order.
#[tactic(auto, unfolding(crate::specs::Orders::mention))]
fn draw_mention(words: &mut Words, count: u64, j: u64) -> u64
    requires { j < MENTIONS * count }
    ensures value { (mention count j words.old).0 ≡ result ∷ [] }
    ensures moved { words.new ≡ (mention count j words.old).1 }
    ensures place { IsPlace count result }
{
    let ahead = words.random(0, 7);
    count.min(1 + j / MENTIONS + ahead)
}

/// Adds the numbers of an order.
fn add_mentions(out: &mut Seq<u64>, words: &mut Words, count: u64) -> Result<(), AllocError>
    requires { count ≤ MOST_TRANSACTIONS }
    ensures { OnOk result (out.new ≡ out.old ++ (mentions count words.old).0) }
{
    for j in 0..MENTIONS * count {
        let place = draw_mention(words, count, j);
        out.push(place)?;
    }
    Ok(())
}

/// An order for the mix with the same numbers, drawn behind it: 32 numbers for each of its places, each of a place among the eight
/// from the one whose turn it is. Its one error is want of memory.
pub fn order(
    alloc: Global,
    warehouses: u64,
    items: u64,
    customers: u64,
    count: u64,
    start: u64,
) -> Result<Seq<u64>, AllocError>
    requires scale { IsScale warehouses items customers }
    requires mix { IsMix count start }
    ensures list { IfOk result (λ numbers. numbers ≡ order_list warehouses items customers count start) }
    ensures places { IfOk result (λ numbers. All (IsPlace count) numbers) }
{
    let scale = Scale {
        warehouses,
        items,
        customers,
    };
    let mut words = Words::new(start);
    pass_mix(alloc, &mut words, scale, count);
    let mut numbers = Seq::new(alloc);
    add_mentions(&mut numbers, &mut words, count)?;
    Ok(numbers)
}
