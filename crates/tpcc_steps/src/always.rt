//! The text of the shipped design: what always holds, between any two steps (3.3.2 of the standard).

/// What always holds: what was taken. Conditions 1, 8 and 9 (3.3.2.1, 3.3.2.8, 3.3.2.9).
pub const MONEY: &[u8] =
    b"# What always holds, between any two steps. DUE, TAKEN and SEEN are empty where no transaction is unfinished; then these clauses say
# the consistency conditions 1 to 9 (3.3.2.1 to 3.3.2.9).

# Conditions 1, 8 and 9: what a warehouse took is what its districts took, and what its payments were, but for those on their way;
# what a district took is what its payments were.
always forall w : WAREHOUSE[w].ytd = sum DISTRICT[w].ytd + sum DUE[w].amt
always forall w : WAREHOUSE[w].ytd = sum HISTORY[w].amt + sum DUE[w].amt
always forall w d : DISTRICT[w, d].ytd = sum HISTORY[w, d].amt
";

/// What always holds: the numbers of orders, and of those that wait. Conditions 2 and 3 (3.3.2.2, 3.3.2.3).
pub const ORDER_NUMBERS: &[u8] =
    b"# Conditions 2 and 3: the orders of a district have the numbers from 1 to nxt - 1, and those from low on wait.
always forall w d : DISTRICT[w, d].low >= has DISTRICT[w, d]
always forall w d : count NEWORDER[w, d] = DISTRICT[w, d].nxt - DISTRICT[w, d].low
always forall w d o : has NEWORDER[w, d, o] <= has ORDERS[w, d, o]
always forall w d o : o >= DISTRICT[w, d].nxt => has NEWORDER[w, d, o] = 0
always forall w d c o : o >= DISTRICT[w, d].nxt => count LINE[w, d, c, o] = 0
always forall w d o : o >= DISTRICT[w, d].nxt => has ORDERS[w, d, o] = 0
always forall w d o : o <= 0 => has ORDERS[w, d, o] = 0
always forall w d o : o >= 1, o <= DISTRICT[w, d].nxt - 1 => has ORDERS[w, d, o] = 1
always forall w d o : has NEWORDER[w, d, o] = 1 => o >= DISTRICT[w, d].low
always forall w d o : o >= DISTRICT[w, d].low, o <= DISTRICT[w, d].nxt - 1 => has NEWORDER[w, d, o] = 1
";

/// What always holds: the carriers. Condition 5 (3.3.2.5).
pub const CARRIERS: &[u8] =
    b"# Condition 5: an order has no carrier exactly where it waits; the carriers are 1 to 10.
always forall w d o : ORDERS[w, d, o].carrier >= 0
always forall w d o : ORDERS[w, d, o].carrier <= 10 - 10 * has NEWORDER[w, d, o]
always forall w d o : ORDERS[w, d, o].carrier >= has ORDERS[w, d, o] - has NEWORDER[w, d, o]
";

/// What always holds: whose an order is, and how many lines it may have.
pub const CUSTOMERS: &[u8] = b"# An order is of a customer of its district, and has up to 15 lines.
always forall w d o : ORDERS[w, d, o].cnt >= 0
always forall w d o : ORDERS[w, d, o].cnt <= 15
always forall w d o c : ORDERS[w, d, o].c = c => has ORDERS[w, d, o] <= has CUSTOMER[w, d, c]
";

/// What always holds: how many lines an order and a district have. Conditions 4 and 6 (3.3.2.4, 3.3.2.6).
pub const LINES: &[u8] =
    b"# Conditions 4 and 6: an order has as many lines as it says, all of them of its customer, and so has a district.
always forall w d c o : count LINE[w, d, c, o] <= 15 * has ORDERS[w, d, o]
always forall w d c o : c <= ORDERS[w, d, o].c - 1 => count LINE[w, d, c, o] = 0
always forall w d c o : c >= ORDERS[w, d, o].c + 1 => count LINE[w, d, c, o] = 0
always forall w d c o : ORDERS[w, d, o].c = c => count LINE[w, d, c, o] = ORDERS[w, d, o].cnt
always forall w d : count LINE[w, d] = sum ORDERS[w, d].cnt
";

/// What always holds: the numbers of lines.
pub const LINE_NUMBERS: &[u8] = b"# The lines of an order have the numbers from 1 on.
always forall w d c o number : number <= 0 => has LINE[w, d, c, o, number] = 0
always forall w d c o number : number >= ORDERS[w, d, o].cnt + 1 => has LINE[w, d, c, o, number] = 0
always forall w d c o number : ORDERS[w, d, o].c = c, number >= 1, number <= ORDERS[w, d, o].cnt => has LINE[w, d, c, o, number] = 1
";

/// What always holds: the dates of deliveries. Condition 7 (3.3.2.7).
pub const DATES: &[u8] =
    b"# Condition 7: a line has no date exactly where its order has no carrier, but for those that are being dated.
always forall w d c o number : LINE[w, d, c, o, number].date >= 0
always forall w d c o number : has NEWORDER[w, d, o] = 1 => LINE[w, d, c, o, number].date <= 0
always forall w d c o number : LINE[w, d, c, o, number].date >= has LINE[w, d, c, o, number] - has NEWORDER[w, d, o] - count TAKEN[w, d, o]
";

/// What always holds: the amounts of lines.
pub const LINE_AMOUNTS: &[u8] = b"# A line's amount is less than 10,000.00.
always forall w d c o number : LINE[w, d, c, o, number].amt >= 0
always forall w d c o number : LINE[w, d, c, o, number].amt <= 999999
";

/// What always holds: the items that a Stock-Level has counted.
pub const COUNTED_ITEMS: &[u8] = b"# What stock level t has counted stands at t alone, once an item.
always forall t : count SEEN[t] >= 0
always forall t i : count SEEN[t, i] = has SEEN[t, i, t]
always forall t i u : u <= t - 1 => has SEEN[t, i, u] = 0
always forall t i u : u >= t + 1 => has SEEN[t, i, u] = 0

";
