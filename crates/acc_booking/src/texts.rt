//! The text of the shipped booking design.

/// The text, with its comments.
pub const SOURCE: &[u8] =
    b"# Flights and rooms that are booked together, without ever selling a seat or a room twice. A booking takes its seats in one step and
# its rooms in the next; what it has taken and not yet booked stands in HELD.

# FLIGHT[f]: how many seats there are, and how many of them are free.
table FLIGHT 1 seats free
# ROOM[h, g]: how many rooms hotel h has for night g, and how many of them are free.
table ROOM 2 rooms free
# BOOKED[f, t]: how many seats of flight f transaction t has booked.
table BOOKED 2 n
# STAY[h, g, t]: how many rooms of hotel h transaction t has booked for night g.
table STAY 3 n
# HELD[f, t]: how many seats of flight f transaction t has taken, and not yet booked.
private HELD 2 n

# No more is booked than there is.
always forall f : FLIGHT[f].free >= 0
always forall h g : ROOM[h, g].free >= 0
# Each seat is free, held or booked; each room is free or booked.
always forall f : FLIGHT[f].seats = FLIGHT[f].free + sum HELD[f].n + sum BOOKED[f].n
always forall h g : ROOM[h, g].rooms = ROOM[h, g].free + sum STAY[h, g].n

# A new flight of n seats. Refused: 1 it is there already, or n is below 0.
type addflight f n; limit 1; local p
point start
next
  has p = FLIGHT[f]
  path p = 0, n >= 0; put FLIGHT[f] n, n; commit
  path; refuse 1
undo
  path; undone

# n rooms of hotel h for night g. Refused: 1 they are there already, or n is below 0.
type addroom h g n; limit 1; local p
point start
next
  has p = ROOM[h, g]
  path p = 0, n >= 0; put ROOM[h, g] n, n; commit
  path; refuse 1
undo
  path; undone

# Books n seats of flight f and n rooms of hotel h for night g. Refused: 1 too few seats are free, there is no such flight or room,
# or n is below 1; 2 too few rooms are free, and the seats are given back.
type book f h g n; limit 2; local p q a b e s; ensures has BOOKED[f, self] = 1
# Nothing is held yet.
point start; holds forall x : has HELD[x, self] = 0
next
  has p = FLIGHT[f]; has q = ROOM[h, g]; get a = FLIGHT[f].free
  path p = 1, q = 1, n >= 1, a >= n; add FLIGHT[f].free -n; put HELD[f, self] n; goto room
  path; refuse 1
undo
  path; undone
# The n seats are held, and no others.
point room
holds n >= 1; holds has FLIGHT[f] = 1; holds has ROOM[h, g] = 1
holds has HELD[f, self] = 1; holds HELD[f, self].n = n; holds forall x : has HELD[x, self] = 1 => x = f
next
  get b = ROOM[h, g].free; has e = BOOKED[f, self]; has s = STAY[h, g, self]
  path b >= n, e = 0, s = 0
    add ROOM[h, g].free -n; put STAY[h, g, self] n; put BOOKED[f, self] n; del HELD[f, self]; commit
  path; refuse 2
undo
  path; add FLIGHT[f].free n; del HELD[f, self]; undone

# Gives back the seats and rooms that transaction t booked. Refused: 1 it has no such booking.
type cancel f h g t; limit 1; local p q r s n m
point start
next
  has p = BOOKED[f, t]; has q = STAY[h, g, t]; has r = FLIGHT[f]; has s = ROOM[h, g]
  get n = BOOKED[f, t].n; get m = STAY[h, g, t].n
  path p = 1, q = 1, r = 1, s = 1, n >= 1, m = n
    add FLIGHT[f].free n; add ROOM[h, g].free n; del BOOKED[f, t]; del STAY[h, g, t]; commit
  path; refuse 1
undo
  path; undone

# Offers n seats of flight f: while the offer stands they stay free. It answers how many were free. Refused: 1 fewer are.
type offer f n; limit 2; returns v; local p v; ensures FLIGHT[f].free >= n
point start
next
  has p = FLIGHT[f]; get v = FLIGHT[f].free
  path p = 1, v >= n; goto kept
  path; refuse 1
undo
  path; undone
point kept; holds FLIGHT[f].free >= n
next
  path; commit
undo
  path; undone

# While seats are offered, nobody takes any of that flight.
entry offer.kept by book.start next : f = f
";
