//! Warehouses, districts and customers that are drawn.
ghost use Rattle.std.specs.Prelude.{◌≡◌, ◌≤◌, ◌<◌};
ghost use Rattle.tpcc_gen.specs.Mixes.{district, customer, another, supplier, remote, payer};

use crate::bounds::MOST_WAREHOUSES;
use crate::scales::Scale;
use crate::words::Words;

/// A district of a warehouse.
#[derive(Clone, Copy)]
pub struct District {
    pub warehouse: u64,
    pub number: u64,
}

pub fn draw_district(words: &mut Words) -> u64
    ensures value { result ≡ (district words.old).0 }
    ensures moved { words.new ≡ (district words.old).1 }
{
    words.random(1, 10)
}

pub fn draw_customer(words: &mut Words, scale: Scale) -> u64
    ensures value { result ≡ (customer scale.customers words.old).0 }
    ensures moved { words.new ≡ (customer scale.customers words.old).1 }
{
    words.uneven(1023, 1, scale.customers)
}

/// A warehouse other than w.
#[tactic(auto, unfolding(crate::specs::Mixes::another))]
fn draw_another(words: &mut Words, scale: Scale, w: u64) -> u64
    requires { 1 < scale.warehouses }
    ensures value { result ≡ (another scale.warehouses w words.old).0 }
    ensures moved { words.new ≡ (another scale.warehouses w words.old).1 }
{
    let v = words.random(1, scale.warehouses - 1);
    if v < w { v } else { v + 1 }
}

/// The supplier of a line.
#[tactic(auto, unfolding(crate::specs::Mixes::supplier))]
pub fn draw_supplier(words: &mut Words, scale: Scale, w: u64) -> u64
    ensures value { result ≡ (supplier scale.warehouses w words.old).0 }
    ensures moved { words.new ≡ (supplier scale.warehouses w words.old).1 }
{
    let y = words.random(1, 100);
    if y == 1 && scale.warehouses > 1 {
        draw_another(words, scale, w)
    } else {
        w
    }
}

/// A district of another warehouse.
#[tactic(auto, unfolding(crate::specs::Mixes::remote))]
fn draw_remote(words: &mut Words, scale: Scale, w: u64) -> District
    requires { 1 < scale.warehouses }
    ensures value { result ≡ (remote scale.warehouses w words.old).0 }
    ensures moved { words.new ≡ (remote scale.warehouses w words.old).1 }
{
    let warehouse = draw_another(words, scale, w);
    let number = draw_district(words);
    District { warehouse, number }
}

/// The district of the customer who pays at a district.
#[tactic(auto, unfolding(crate::specs::Mixes::payer))]
pub fn draw_payer(words: &mut Words, scale: Scale, at: District) -> District
    ensures value { result ≡ (payer scale.warehouses at words.old).0 }
    ensures moved { words.new ≡ (payer scale.warehouses at words.old).1 }
{
    let y = words.random(1, 100);
    if y > 85 && scale.warehouses > 1 {
        draw_remote(words, scale, at.warehouse)
    } else {
        at
    }
}
