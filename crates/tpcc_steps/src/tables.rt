//! The text of the shipped design: its tables.

/// The tables: those of the standard, and three private ones for what is on its way.
pub const TABLES: &[u8] =
    b"# The five transactions of TPC-C 5.11 over its tables, and six types that load the tables.
# Money is whole cents; taxes and discounts are ten-thousandths; a date is a whole number, and 0 is none.
# The null carrier (4.3.3.1, O_CARRIER_ID) and the null delivery date (OL_DELIVERY_D) are 0. Text columns are left out.
# In keys: w is a warehouse, d a district of it, c a customer of that district, o an order of it, i an item.

# WAREHOUSE[w]: W_YTD, what was paid here so far; W_TAX.
table WAREHOUSE 1 ytd tax
# DISTRICT[w, d]: D_YTD, D_TAX and D_NEXT_O_ID, the number of the next order.
# low is the lowest number of an order that isn't delivered: those from low to nxt - 1 wait.
table DISTRICT 2 ytd tax nxt low
# CUSTOMER[w, d, c]: C_BALANCE, C_YTD_PAYMENT, C_PAYMENT_CNT, C_DELIVERY_CNT, C_DISCOUNT.
table CUSTOMER 3 bal paid pays dels disc
# HISTORY[w, d, t]: H_AMOUNT of the payment t, by the district that booked it; a loaded one stands at -c.
table HISTORY 3 amt
# HCUST[w, d, c, t]: the same amounts, by the customer that paid.
table HCUST 4 amt
# NEWORDER[w, d, o]: the order waits for its delivery.
table NEWORDER 3
# ORDERS[w, d, o]: O_C_ID, O_CARRIER_ID, O_OL_CNT (the lines that are there so far), O_ENTRY_D;
# owner is the transaction that fills the order, agent the one that delivers it.
table ORDERS 3 c carrier cnt entered owner agent
# CUSTORDER[w, d, c, o]: order o is one of customer c, so that the latest can be found.
table CUSTORDER 4
# LINE[w, d, c, o, number]: OL_I_ID, OL_SUPPLY_W_ID, OL_QUANTITY, OL_AMOUNT, OL_DELIVERY_D;
# delta is what the line added to the stock's quantity, which is taken off again where the order is undone.
table LINE 5 item supply qty amt date delta
# ITEM[i]: I_PRICE.
table ITEM 1 price
# STOCK[w, i]: S_QUANTITY, S_YTD, S_ORDER_CNT, S_REMOTE_CNT.
table STOCK 2 qty ytd cnt remote
# DUE[w, d, t]: what payment t has booked on its warehouse and not yet on its district.
private DUE 3 amt
# TAKEN[w, d, o, t]: delivery t dates the lines of order o.
private TAKEN 4
# SEEN[t, i, t]: stock level t has counted item i.
private SEEN 3

";
