//! The text of the shipped design: the types that load the tables (4.3.3.1 of the standard).

/// Loads a warehouse (4.3.3.1).
pub const LOAD_WAREHOUSE: &[u8] =
    b"# Loads a warehouse (4.3.3.1). What was paid there comes in with its customers.
type ldwh w tax; limit 1; local p
point start
next
  has p = WAREHOUSE[w]
  path p = 0; put WAREHOUSE[w] 0, tax; commit
  path; refuse 2
undo
  path; undone

";

/// Loads a district.
pub const LOAD_DISTRICT: &[u8] = b"# Loads a district, whose first order has number 1.
type lddist w d tax; limit 1; local p q
point start
next
  has p = WAREHOUSE[w]; has q = DISTRICT[w, d]
  path p = 1, q = 0; put DISTRICT[w, d] 0, tax, 1, 1; commit
  path; refuse 2
undo
  path; undone

";

/// Loads items.
pub const LOAD_ITEMS: &[u8] = b"# Loads n items; the tape has the number and the price of each.
type lditem n; limit 101; local l i price p
point start
next
  let l = l + 1; take i; take price; has p = ITEM[i]
  path l >= n + 1; commit
  path p = 0, i >= 1, i <= 100000, price >= 1, price <= 10000; put ITEM[i] price; goto start
  path; refuse 2
undo
  path; undone

";

/// Loads the stock of items.
pub const LOAD_STOCK: &[u8] =
    b"# Loads the stock of n items; the tape has the item and the quantity of each.
type ldstock w n; limit 101; local l i q p r s
point start
next
  let l = l + 1; take i; take q; has p = WAREHOUSE[w]; has r = ITEM[i]; has s = STOCK[w, i]
  path l >= n + 1; commit
  path p = 1, r = 1, s = 0; put STOCK[w, i] q, 0, 0, 0; goto start
  path; refuse 2
undo
  path; undone

";

/// Loads customers.
pub const LOAD_CUSTOMERS: &[u8] =
    b"# Loads n customers; the tape has the number and the discount of each. Each has paid 10.00 and has a balance of -10.00.
type ldcust w d n; limit 101; local l c disc p q r h g
point start
next
  let l = l + 1; take c; take disc; has p = WAREHOUSE[w]; has q = DISTRICT[w, d]
  has r = CUSTOMER[w, d, c]; has h = HISTORY[w, d, -c]; has g = HCUST[w, d, c, -c]
  path l >= n + 1; commit
  path p = 1, q = 1, r = 0, h = 0, g = 0, c >= 1
    put CUSTOMER[w, d, c] -1000, 1000, 1, 0, disc
    add WAREHOUSE[w].ytd 1000; add DISTRICT[w, d].ytd 1000
    put HISTORY[w, d, -c] 1000; put HCUST[w, d, c, -c] 1000; goto start
  path; refuse 2
undo
  path; undone

";

/// Loads an order.
pub const LOAD_ORDER: &[u8] =
    b"# Loads an order of n lines of 5 pieces each; the tape has the item, the supplying warehouse and the amount of each.
# With carrier and dd 0 it waits; else it was delivered by that carrier on date dd, and then none before it may wait.
type ldorder w d c n date carrier dd; limit 17; local q r o lw l i s amt st
point start
next
  has q = DISTRICT[w, d]; has r = CUSTOMER[w, d, c]
  get o = DISTRICT[w, d].nxt; get lw = DISTRICT[w, d].low; let l = 1
  path q = 1, r = 1, n >= 5, n <= 15, date >= 1, carrier = 0, dd = 0
    put ORDERS[w, d, o] c, 0, 0, date, self, 0; put CUSTORDER[w, d, c, o]
    put NEWORDER[w, d, o]; add DISTRICT[w, d].nxt 1; goto fill
  path q = 1, r = 1, n >= 5, n <= 15, date >= 1, carrier >= 1, carrier <= 10, dd >= 1, lw = o
    put ORDERS[w, d, o] c, carrier, 0, date, self, 0; put CUSTORDER[w, d, c, o]
    add DISTRICT[w, d].nxt 1; add DISTRICT[w, d].low 1; goto fill
  path; refuse 2
undo
  path; undone
point fill
# The order is this one's, has l - 1 lines, and waits or has its date.
variant l
holds n <= 15
holds l >= 1
holds l <= n + 1
holds o <= DISTRICT[w, d].nxt - 1
holds ORDERS[w, d, o].owner = self
holds ORDERS[w, d, o].c = c
holds ORDERS[w, d, o].cnt = l - 1
holds ORDERS[w, d, o].agent = 0
holds dd >= 1 - has NEWORDER[w, d, o]
holds has NEWORDER[w, d, o] = 1 => dd <= 0
next
  take i; take s; take amt; has st = STOCK[s, i]; let l = l + 1
  path l >= n + 2; commit
  path st = 1, i >= 1, i <= 100000, s >= 1, s <= 10000, amt >= 0, amt <= 999999
    put LINE[w, d, c, o, l - 1] i, s, 5, amt, dd, 0; add ORDERS[w, d, o].cnt 1; goto fill
  path; refuse 2
undo
  let l = l - 1
  path l >= 1; del LINE[w, d, c, o, l]; add ORDERS[w, d, o].cnt -1; goto fill
  path; undone

";
