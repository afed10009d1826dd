//! The text of the shipped design: the five transactions of TPC-C (2.4 to 2.8 of the standard).

/// The Payment (2.5).
pub const PAYMENT: &[u8] =
    b"# Payment (2.5.2.2): a customer of district cw, cd pays 1.00 to 5,000.00 at district w, d:
# booked on the warehouse, then on the district, then on the customer.
type payment w d cw cd c amt; limit 3; local p q r h
ensures has HISTORY[w, d, self] = 1; ensures HISTORY[w, d, self].amt = amt
point start
# Nothing is on its way yet.
holds forall warehouse district : has DUE[warehouse, district, self] = 0
next
  has p = WAREHOUSE[w]; has q = DISTRICT[w, d]; has r = CUSTOMER[cw, cd, c]
  path p = 1, q = 1, r = 1, amt >= 100, amt <= 500000
    add WAREHOUSE[w].ytd amt; put DUE[w, d, self] amt; goto dist
  path; refuse 2
undo
  path; undone
point dist
# The amount is on its way from the warehouse to the district, and to no other.
holds has WAREHOUSE[w] = 1
holds has DISTRICT[w, d] = 1
holds has CUSTOMER[cw, cd, c] = 1
holds DUE[w, d, self].amt = amt
holds forall warehouse district : warehouse <= w - 1 => has DUE[warehouse, district, self] = 0
holds forall warehouse district : warehouse >= w + 1 => has DUE[warehouse, district, self] = 0
holds forall warehouse district : district <= d - 1 => has DUE[warehouse, district, self] = 0
holds forall warehouse district : district >= d + 1 => has DUE[warehouse, district, self] = 0
next
  has h = HISTORY[w, d, self]
  path h = 0
    add DISTRICT[w, d].ytd amt; put HISTORY[w, d, self] amt; del DUE[w, d, self]; goto cust
  path; refuse 3
undo
  path; add WAREHOUSE[w].ytd -amt; del DUE[w, d, self]; undone
point cust
# Both have it.
holds has WAREHOUSE[w] = 1
holds has DISTRICT[w, d] = 1
holds has CUSTOMER[cw, cd, c] = 1
holds has HISTORY[w, d, self] = 1
holds HISTORY[w, d, self].amt = amt
holds forall warehouse district : has DUE[warehouse, district, self] = 0
next
  has h = HCUST[cw, cd, c, self]
  path h = 0
    add CUSTOMER[cw, cd, c].bal -amt; add CUSTOMER[cw, cd, c].paid amt
    add CUSTOMER[cw, cd, c].pays 1; put HCUST[cw, cd, c, self] amt; commit
  path; refuse 3
undo
  path; add WAREHOUSE[w].ytd -amt; add DISTRICT[w, d].ytd -amt; del HISTORY[w, d, self]; undone

";

/// The New-Order (2.4).
pub const NEW_ORDER: &[u8] =
    b"# New-Order (2.4.2.2): customer c orders n items; the tape has the item, the supplying warehouse and the quantity of
# each line. A step enters the order, each further one fills a line, and the last answers the order's number and its
# total. An unused item (2.4.1.4) refuses with 1; then the lines are taken back one by one, and the order stays, empty.
type neworder w d c n date; limit 17; returns o total
local p q r o l tot total wt dt dc f i s k it st price sq amt rest dl
ensures ORDERS[w, d, o].cnt = n; ensures ORDERS[w, d, o].c = c; repairs ORDERS[w, d, o].cnt = 0
point start
holds o = 0
next
  has p = WAREHOUSE[w]; has q = DISTRICT[w, d]; has r = CUSTOMER[w, d, c]
  get o = DISTRICT[w, d].nxt; let l = 1
  path p = 1, q = 1, r = 1, n >= 5, n <= 15, date >= 1
    put ORDERS[w, d, o] c, 0, 0, date, self, 0; put CUSTORDER[w, d, c, o]
    put NEWORDER[w, d, o]; add DISTRICT[w, d].nxt 1; goto fill
  path; refuse 2
undo
  path; undone
point fill
# The order is this one's, waits, and has l - 1 lines; what line x took from stock (y, z) can be given back.
variant l
holds n <= 15
holds l >= 1
holds l <= n + 1
holds o <= DISTRICT[w, d].nxt - 1
holds ORDERS[w, d, o].owner = self
holds ORDERS[w, d, o].c = c
holds ORDERS[w, d, o].cnt = l - 1
holds has NEWORDER[w, d, o] = 1
holds forall number : LINE[w, d, c, o, number].item >= 0
holds forall number : LINE[w, d, c, o, number].item <= 100000
holds forall number : LINE[w, d, c, o, number].supply >= 0
holds forall number : LINE[w, d, c, o, number].supply <= 10000
holds forall number : LINE[w, d, c, o, number].qty >= 0
holds forall number : LINE[w, d, c, o, number].qty <= 10
holds forall number : LINE[w, d, c, o, number].delta >= -10
holds forall number : LINE[w, d, c, o, number].delta <= 90
holds forall x y z : LINE[w, d, c, o, x].supply = y, LINE[w, d, c, o, x].item = z => has LINE[w, d, c, o, x] <= has STOCK[y, z]
next
# The total of the lines so far: less the discount, rounded down; then with the taxes, rounded down.
  get wt = WAREHOUSE[w].tax; get dt = DISTRICT[w, d].tax; get dc = CUSTOMER[w, d, c].disc
  let f = 10000 - dc; mul total = tot f; div total = total 10000
  let f = 10000 + wt + dt; mul total = total f; div total = total 10000
# Line l: k pieces of item i from warehouse s. Behind the last line the tape may have ended, and what is read is 0.
  take i; take s; take k; has it = ITEM[i]; get price = ITEM[i].price
  has st = STOCK[s, i]; get sq = STOCK[s, i].qty; mul amt = k price
  let tot = tot + amt; let rest = sq - k; let l = l + 1
  path l >= n + 2; commit
  path it = 0; refuse 1
# From the own warehouse, from one with a lower number, from one with a higher number; each where at least 10 pieces
# are left, and where fewer are, so that 91 come in.
  path st = 1, i >= 1, i <= 100000, s >= 1, s <= 10000, k >= 1, k <= 10, amt >= 0, amt <= 999999, s = w, rest >= 10
    add STOCK[s, i].qty -k; add STOCK[s, i].ytd k; add STOCK[s, i].cnt 1
    put LINE[w, d, c, o, l - 1] i, s, k, amt, 0, -k; add ORDERS[w, d, o].cnt 1; goto fill
  path st = 1, i >= 1, i <= 100000, s >= 1, s <= 10000, k >= 1, k <= 10, amt >= 0, amt <= 999999, s = w, rest <= 9
    add STOCK[s, i].qty 91 - k; add STOCK[s, i].ytd k; add STOCK[s, i].cnt 1
    put LINE[w, d, c, o, l - 1] i, s, k, amt, 0, 91 - k; add ORDERS[w, d, o].cnt 1; goto fill
  path st = 1, i >= 1, i <= 100000, s >= 1, s <= 10000, k >= 1, k <= 10, amt >= 0, amt <= 999999, s <= w - 1, rest >= 10
    add STOCK[s, i].qty -k; add STOCK[s, i].ytd k; add STOCK[s, i].cnt 1; add STOCK[s, i].remote 1
    put LINE[w, d, c, o, l - 1] i, s, k, amt, 0, -k; add ORDERS[w, d, o].cnt 1; goto fill
  path st = 1, i >= 1, i <= 100000, s >= 1, s <= 10000, k >= 1, k <= 10, amt >= 0, amt <= 999999, s <= w - 1, rest <= 9
    add STOCK[s, i].qty 91 - k; add STOCK[s, i].ytd k; add STOCK[s, i].cnt 1; add STOCK[s, i].remote 1
    put LINE[w, d, c, o, l - 1] i, s, k, amt, 0, 91 - k; add ORDERS[w, d, o].cnt 1; goto fill
  path st = 1, i >= 1, i <= 100000, s >= 1, s <= 10000, k >= 1, k <= 10, amt >= 0, amt <= 999999, s >= w + 1, rest >= 10
    add STOCK[s, i].qty -k; add STOCK[s, i].ytd k; add STOCK[s, i].cnt 1; add STOCK[s, i].remote 1
    put LINE[w, d, c, o, l - 1] i, s, k, amt, 0, -k; add ORDERS[w, d, o].cnt 1; goto fill
  path st = 1, i >= 1, i <= 100000, s >= 1, s <= 10000, k >= 1, k <= 10, amt >= 0, amt <= 999999, s >= w + 1, rest <= 9
    add STOCK[s, i].qty 91 - k; add STOCK[s, i].ytd k; add STOCK[s, i].cnt 1; add STOCK[s, i].remote 1
    put LINE[w, d, c, o, l - 1] i, s, k, amt, 0, 91 - k; add ORDERS[w, d, o].cnt 1; goto fill
  path; refuse 2
undo
  let l = l - 1; get i = LINE[w, d, c, o, l].item; get s = LINE[w, d, c, o, l].supply
  get k = LINE[w, d, c, o, l].qty; get dl = LINE[w, d, c, o, l].delta
  path s = w, l >= 1
    add STOCK[s, i].qty -dl; add STOCK[s, i].ytd -k; add STOCK[s, i].cnt -1
    del LINE[w, d, c, o, l]; add ORDERS[w, d, o].cnt -1; goto fill
  path s <= w - 1, l >= 1
    add STOCK[s, i].qty -dl; add STOCK[s, i].ytd -k; add STOCK[s, i].cnt -1; add STOCK[s, i].remote -1
    del LINE[w, d, c, o, l]; add ORDERS[w, d, o].cnt -1; goto fill
  path s >= w + 1, l >= 1
    add STOCK[s, i].qty -dl; add STOCK[s, i].ytd -k; add STOCK[s, i].cnt -1; add STOCK[s, i].remote -1
    del LINE[w, d, c, o, l]; add ORDERS[w, d, o].cnt -1; goto fill
  path; undone

";

/// The Delivery (2.7).
pub const DELIVERY: &[u8] =
    b"# Delivery (2.7.4.2): in each of the ten districts the oldest order that waits is taken, its lines are dated one by one,
# and their amounts go to the customer's balance. A district without one is skipped.
# One that turns while it dates an order's lines dates them all, and ends then.
type delivery w carrier date; limit 200; local p d m o c cnt k a tot; ensures d >= 11
point start
# No order's lines are being dated.
holds forall warehouse district order : has TAKEN[warehouse, district, order, self] = 0
next
  has p = WAREHOUSE[w]; let d = 1
  path p = 1, carrier >= 1, carrier <= 10, date >= 1; goto pick
  path; refuse 2
undo
  path; undone
point pick
# The orders from low on wait in the district that comes next; so the oldest is at low.
holds carrier >= 1
holds carrier <= 10
holds date >= 1
holds forall warehouse district order : has TAKEN[warehouse, district, order, self] = 0
holds forall order : has NEWORDER[w, d, order] = 1 => order >= DISTRICT[w, d].low
holds forall order : order >= DISTRICT[w, d].low, order <= DISTRICT[w, d].nxt - 1 => has NEWORDER[w, d, order] = 1
next
  count m = NEWORDER[w, d]; least o = NEWORDER[w, d]
  get c = ORDERS[w, d, o].c; get cnt = ORDERS[w, d, o].cnt; let k = 1; let tot = 0
  path d >= 11; commit
  path m = 0; goto skip
  path m >= 1
    del NEWORDER[w, d, o]; set ORDERS[w, d, o].carrier carrier; set ORDERS[w, d, o].agent self
    add DISTRICT[w, d].low 1; put TAKEN[w, d, o, self]; goto line
  path; refuse 3
undo
  path; undone
point line
# Order o is taken, no other is; its lines below k have their date, and tot is at most what they can amount to.
variant cnt + 2 - k
holds carrier >= 1
holds carrier <= 10
holds date >= 1
holds cnt <= 15
holds k >= 1
holds k <= cnt + 1
holds tot <= 999999 * k - 999999
holds o <= DISTRICT[w, d].nxt - 1
holds has NEWORDER[w, d, o] = 0
holds ORDERS[w, d, o].agent = self
holds ORDERS[w, d, o].c = c
holds ORDERS[w, d, o].cnt = cnt
holds has CUSTOMER[w, d, c] = 1
holds has TAKEN[w, d, o, self] = 1
holds forall warehouse district order : warehouse <= w - 1 => has TAKEN[warehouse, district, order, self] = 0
holds forall warehouse district order : warehouse >= w + 1 => has TAKEN[warehouse, district, order, self] = 0
holds forall warehouse district order : district <= d - 1 => has TAKEN[warehouse, district, order, self] = 0
holds forall warehouse district order : district >= d + 1 => has TAKEN[warehouse, district, order, self] = 0
holds forall warehouse district order : order <= o - 1 => has TAKEN[warehouse, district, order, self] = 0
holds forall warehouse district order : order >= o + 1 => has TAKEN[warehouse, district, order, self] = 0
holds forall buyer number : number <= k - 1 => LINE[w, d, buyer, o, number].date >= has LINE[w, d, buyer, o, number]
next
  get a = LINE[w, d, c, o, k].amt; let tot = tot + a; let k = k + 1
  path k <= cnt + 1; set LINE[w, d, c, o, k - 1].date date; goto line
  path
    add CUSTOMER[w, d, c].bal tot; add CUSTOMER[w, d, c].dels 1; del TAKEN[w, d, o, self]; goto skip
undo
  get a = LINE[w, d, c, o, k].amt; let tot = tot + a; let k = k + 1
  path k <= cnt + 1; set LINE[w, d, c, o, k - 1].date date; goto line
  path
    add CUSTOMER[w, d, c].bal tot; add CUSTOMER[w, d, c].dels 1; del TAKEN[w, d, o, self]; undone
point skip
holds carrier >= 1
holds carrier <= 10
holds date >= 1
holds forall warehouse district order : has TAKEN[warehouse, district, order, self] = 0
next
  let d = d + 1
  path; goto pick
undo
  path; undone

";

/// The Order-Status (2.6).
pub const ORDER_STATUS: &[u8] =
    b"# Order-Status (2.6.2.2): the customer's latest order, its carrier, its number of lines, the sum of their amounts, and
# the customer's balance.
type orderstatus w d c; limit 1; returns o carrier cnt due bal; local p o carrier cnt due bal
point start
next
  has p = CUSTOMER[w, d, c]; greatest o = CUSTORDER[w, d, c]
  get carrier = ORDERS[w, d, o].carrier; get cnt = ORDERS[w, d, o].cnt
  sum due = LINE[w, d, c, o].amt; get bal = CUSTOMER[w, d, c].bal
  path p = 1; commit
  path; refuse 2
undo
  path; undone

";

/// The Stock-Level (2.8).
pub const STOCK_LEVEL: &[u8] =
    b"# Stock-Level (2.8.2.2): how many different items of the district's last 20 orders have fewer than t pieces in the
# warehouse. SEEN keeps the items that were counted; they are dropped at the end.
type stocklevel w d t; limit 1000; returns found; local p top o m c cnt k i q h found
point start
holds forall thing owner : has SEEN[thing, owner, self] = 0
next
  has p = DISTRICT[w, d]; get top = DISTRICT[w, d].nxt; let o = top - 21; count m = SEEN[self]
  path p = 1, m = 0, t >= 10, t <= 20; goto ord
  path; refuse 2
undo
  path; undone
point ord
# m items are counted.
variant m + 1
holds m <= 1000
holds count SEEN[self] = m
next
  let o = o + 1; get c = ORDERS[w, d, o].c; get cnt = ORDERS[w, d, o].cnt; let k = 0; let found = m
  path o >= top; goto clean
  path; goto item
undo
  least i = SEEN[self]; let m = m - 1
  path m >= 0; del SEEN[self, i, self]; goto clean
  path; undone
point item
variant m + 1
holds m <= 1000
holds count SEEN[self] = m
next
  let k = k + 1; get i = LINE[w, d, c, o, k].item; get q = STOCK[w, i].qty; has h = SEEN[self, i, self]
  path k >= cnt + 1; goto ord
  path h = 0, m <= 999, q <= t - 1; goto hit
  path; goto item
undo
  least i = SEEN[self]; let m = m - 1
  path m >= 0; del SEEN[self, i, self]; goto clean
  path; undone
point hit
# Item i isn't counted yet.
variant m + 1
holds m <= 999
holds count SEEN[self] = m
holds has SEEN[self, i, self] = 0
next
  let m = m + 1
  path; put SEEN[self, i, self]; goto item
undo
  least i = SEEN[self]; let m = m - 1
  path m >= 0; del SEEN[self, i, self]; goto clean
  path; undone
point clean
variant m
holds m <= 1000
holds count SEEN[self] = m
next
  least i = SEEN[self]; let m = m - 1
  path m >= 0; del SEEN[self, i, self]; goto clean
  path; commit
undo
  least i = SEEN[self]; let m = m - 1
  path m >= 0; del SEEN[self, i, self]; goto clean
  path; undone

";
