// From a state to its 25 places and back. The places are in two arrays, one of the even columns and one of the odd ones: the compiler keeps the order of reads
// and writes of two arrays, so that a row's lanes stay in registers and no others do. Lanes 1, 2, 8, 12, 17 and 20 are held inverted.
#![tactic(auto)]

ghost use Rattle.std.specs.Prelude.{◌≡◌, length};
ghost use Rattle.in_place.specs.Complemented.{complemented};
ghost use Rattle.in_place.specs.Places.{standing, Known, lanes, even_columns, odd_columns};

// The places of a state, row by row: those of columns 0, 2 and 4, and those of columns 1 and 3.
#[derive(Clone, Copy)]
pub struct Columns {
    pub evens: [u64; 15],
    pub odds: [u64; 10],
}

impl Columns {
    // The places of a state, six lanes inverted.
    pub fn of(a: [u64; 25]) -> Columns
        ensures evens { result.evens ≡ even_columns (complemented a) }
        ensures odds { result.odds ≡ odd_columns (complemented a) }
    {
        Columns {
            evens: [
                a[0],
                a[2] ^ u64::MAX,
                a[4],
                a[5],
                a[7],
                a[9],
                a[10],
                a[12] ^ u64::MAX,
                a[14],
                a[15],
                a[17] ^ u64::MAX,
                a[19],
                a[20] ^ u64::MAX,
                a[22],
                a[24],
            ],
            odds: [
                a[1] ^ u64::MAX,
                a[3],
                a[6],
                a[8] ^ u64::MAX,
                a[11],
                a[13],
                a[16],
                a[18],
                a[21],
                a[23],
            ],
        }
    }

    // The state of its places, the six lanes inverted back.
    #[tactic(auto, unfolding(in_place::specs::Places::lanes, in_place::specs::Complemented::complemented, in_place::specs::Complemented::masked))]
    pub fn joined(self) -> [u64; 25]
        ensures { result ≡ complemented (lanes 0 (standing self.evens self.odds)) }
    {
        let p = self.evens;
        let q = self.odds;
        [
            p[0],
            q[0] ^ u64::MAX,
            p[1] ^ u64::MAX,
            q[1],
            p[2],
            p[3],
            q[2],
            p[4],
            q[3] ^ u64::MAX,
            p[5],
            p[6],
            q[4],
            p[7] ^ u64::MAX,
            q[5],
            p[8],
            p[9],
            q[6],
            p[10] ^ u64::MAX,
            q[7],
            p[11],
            p[12] ^ u64::MAX,
            q[8],
            p[13],
            q[9],
            p[14],
        ]
    }
}

// What the types say of the lanes and of the two arrays, which a proof cannot read through a reference. No code is made of either.
pub fn all_lanes(a: [u64; 25])
    ensures { length a ≡ 25 }
{}

pub fn known(p: [u64; 15], q: [u64; 10])
    ensures { Known (standing p q) }
{}
