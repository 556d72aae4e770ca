// The parts of a round on five lanes: θ's effect on the columns, and a row after it, by ρ and χ, of which some lanes are held inverted (FIPS 202, 3.2.1, 3.2.2
// and 3.2.4). Lanes 1, 2, 8, 12, 17 and 20 stay inverted from round to round; θ, ρ and π take that to lanes 0, 2, 3, 5, 7, 10, 12, 16, 18, 19, 20 and 23, and
// χ then needs 8 inversions and not 25. The order of the statements is what keeps a row in registers.
// The five rows are functions of their own: a row's operators hang on the lanes that are held inverted, so that one function of the row's number
// would pick each of its operators by that number, and be no plainer.
#![tactic(auto)]

ghost use Rattle.std.specs.Prelude.{◌≡◌};
ghost use Rattle.in_place.specs.Rows.{effect, held_row, held_first_row};

// θ's effect on each column, of the parities of all five.
pub fn effect(c: [u64; 5]) -> [u64; 5]
    ensures { result ≡ effect c }
{
    let [c0, c1, c2, c3, c4] = c;
    let d0 = c4 ^ c1.rotate_left(1);
    let d3 = c2 ^ c4.rotate_left(1);
    let d1 = c0 ^ c2.rotate_left(1);
    let d4 = c3 ^ c0.rotate_left(1);
    let d2 = c1 ^ c3.rotate_left(1);
    [d0, d1, d2, d3, d4]
}

// Row 0, of the five lanes that π brings there, with ι by the round constant k.
pub fn row0(a: [u64; 5], k: u64) -> [u64; 5]
    ensures { result ≡ held_first_row a k }
{
    let [a0, a1, a2, a3, a4] = a;
    let b1 = a1.rotate_left(44);
    let b2 = a2.rotate_left(43);
    let b3 = a3.rotate_left(21);
    let b4 = a4.rotate_left(14);
    let e0 = a0 ^ (b1 | b2) ^ k;
    let e4 = b4 ^ (a0 & b1);
    let e3 = b3 ^ (b4 | a0);
    let e2 = b2 ^ (b3 & b4);
    let e1 = b1 ^ ((b2 ^ u64::MAX) | b3);
    [e0, e1, e2, e3, e4]
}

// Row 1, of the five lanes that π brings there.
pub fn row1(a: [u64; 5]) -> [u64; 5]
    ensures { result ≡ held_row 1 a }
{
    let [a0, a1, a2, a3, a4] = a;
    let b0 = a0.rotate_left(28);
    let b1 = a1.rotate_left(20);
    let b2 = a2.rotate_left(3);
    let b3 = a3.rotate_left(45);
    let b4 = a4.rotate_left(61);
    let e0 = b0 ^ (b1 | b2);
    let e4 = b4 ^ (b0 & b1);
    let e3 = b3 ^ (b4 | b0);
    let e2 = b2 ^ (b3 | (b4 ^ u64::MAX));
    let e1 = b1 ^ (b2 & b3);
    [e0, e1, e2, e3, e4]
}

// Row 2, of the five lanes that π brings there.
pub fn row2(a: [u64; 5]) -> [u64; 5]
    ensures { result ≡ held_row 2 a }
{
    let [a0, a1, a2, a3, a4] = a;
    let b0 = a0.rotate_left(1);
    let b1 = a1.rotate_left(6);
    let b2 = a2.rotate_left(25);
    let b3 = a3.rotate_left(8);
    let b4 = a4.rotate_left(18);
    let e0 = b0 ^ (b1 | b2);
    let e4 = b4 ^ (b0 & b1);
    let e3 = b3 ^ ((b4 | b0) ^ u64::MAX);
    let e2 = b2 ^ ((b3 ^ u64::MAX) & b4);
    let e1 = b1 ^ (b2 & b3);
    [e0, e1, e2, e3, e4]
}

// Row 3, of the five lanes that π brings there.
pub fn row3(a: [u64; 5]) -> [u64; 5]
    ensures { result ≡ held_row 3 a }
{
    let [a0, a1, a2, a3, a4] = a;
    let b0 = a0.rotate_left(27);
    let b1 = a1.rotate_left(36);
    let b2 = a2.rotate_left(10);
    let b3 = a3.rotate_left(15);
    let b4 = a4.rotate_left(56);
    let e0 = b0 ^ (b1 & b2);
    let e4 = b4 ^ (b0 | b1);
    let e3 = b3 ^ ((b4 & b0) ^ u64::MAX);
    let e2 = b2 ^ ((b3 ^ u64::MAX) | b4);
    let e1 = b1 ^ (b2 | b3);
    [e0, e1, e2, e3, e4]
}

// Row 4, of the five lanes that π brings there.
pub fn row4(a: [u64; 5]) -> [u64; 5]
    ensures { result ≡ held_row 4 a }
{
    let [a0, a1, a2, a3, a4] = a;
    let b0 = a0.rotate_left(62);
    let b1 = a1.rotate_left(55);
    let b2 = a2.rotate_left(39);
    let b3 = a3.rotate_left(41);
    let b4 = a4.rotate_left(2);
    let e0 = b0 ^ ((b1 ^ u64::MAX) & b2);
    let e4 = b4 ^ (b0 & b1);
    let e3 = b3 ^ (b4 | b0);
    let e2 = b2 ^ (b3 & b4);
    let e1 = b1 ^ ((b2 | b3) ^ u64::MAX);
    [e0, e1, e2, e3, e4]
}
