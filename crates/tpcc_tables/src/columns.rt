//! The columns that the conditions speak of, by their places in their tables.

/// What a warehouse or a district took in payments so far (W_YTD, D_YTD).
pub const YTD: usize = 0;

/// The number of a district's next order (D_NEXT_O_ID).
pub const NEXT_ORDER: usize = 2;

/// The carrier of an order, and 0 before it is delivered (O_CARRIER_ID).
pub const CARRIER: usize = 1;

/// How many lines an order has (O_OL_CNT).
pub const LINE_COUNT: usize = 2;

/// When a line was delivered, and 0 before (OL_DELIVERY_D).
pub const DELIVERY_DATE: usize = 4;

/// The amount of a payment (H_AMOUNT).
pub const AMOUNT: usize = 0;
