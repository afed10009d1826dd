//! The kinds of transactions.
ghost use Rattle.std.specs.Prelude.{◌≡◌};
ghost use Rattle.tpcc_gen.specs.Mixes.{kind_of};

/// A kind of transaction.
#[derive(Clone, Copy)]
pub enum Kind {
    NewOrder,
    Payment,
    OrderStatus,
    Delivery,
    StockLevel,
}

/// The kind that a number from 1 to 100 stands for.
pub fn kind_of(x: u64) -> Kind
    ensures { result ≡ kind_of x }
{
    match x {
        ..=45 => Kind::NewOrder,
        ..=88 => Kind::Payment,
        ..=92 => Kind::OrderStatus,
        ..=96 => Kind::Delivery,
        _ => Kind::StockLevel,
    }
}
