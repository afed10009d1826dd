//! The text of the shipped design, of its parts.
ghost use Rattle.std.specs.Prelude.{◌≡◌, IfOk};
ghost use Rattle.tpcc_steps.specs.ShippedText.{shipped_bytes};

use crate::always::{
    CARRIERS, COUNTED_ITEMS, CUSTOMERS, DATES, LINE_AMOUNTS, LINE_NUMBERS, LINES, MONEY,
    ORDER_NUMBERS,
};
use crate::loading::{
    LOAD_CUSTOMERS, LOAD_DISTRICT, LOAD_ITEMS, LOAD_ORDER, LOAD_STOCK, LOAD_WAREHOUSE,
};
use crate::locks::{ENTRIES, HINTS};
use crate::tables::TABLES;
use crate::transactions::{DELIVERY, NEW_ORDER, ORDER_STATUS, PAYMENT, STOCK_LEVEL};
use std::alloc::{AllocError, Global};

/// The text, with its comments: one part behind the other.
pub fn source(alloc: Global) -> Result<Vec<u8>, AllocError>
    ensures { IfOk result (λ text. text.items ≡ shipped_bytes) }
{
    let parts = [
        TABLES,
        MONEY,
        ORDER_NUMBERS,
        CARRIERS,
        CUSTOMERS,
        LINES,
        LINE_NUMBERS,
        DATES,
        LINE_AMOUNTS,
        COUNTED_ITEMS,
        PAYMENT,
        NEW_ORDER,
        DELIVERY,
        ORDER_STATUS,
        STOCK_LEVEL,
        LOAD_WAREHOUSE,
        LOAD_DISTRICT,
        LOAD_ITEMS,
        LOAD_STOCK,
        LOAD_CUSTOMERS,
        LOAD_ORDER,
        ENTRIES,
        HINTS,
    ];
    let text = parts.concat(alloc)?;
    Ok(text)
}
