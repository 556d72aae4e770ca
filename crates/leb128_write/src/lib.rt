// One seven-bit number (LEB128; docs/RULES.md, 'Chute plan'), written: how many bytes it takes, and writing it at a place of a lent buffer.
#![tactic(auto)]

mod put; // put.rt: the stores of a number's groups, where there is room for them

ghost use Rattle.std.specs.Prelude.{◌≡◌, ◌+◌, ◌%◌, length};
ghost use Rattle.leb128_write.specs.Answers.{number_length, written_past, number_written, unless_zero};

// How many bytes a number takes, in the fewest groups; none for one above the largest.
#[tactic(auto, unfolding(crate::specs::Answers::number_length, crate::specs::Written::written_groups))]
pub fn number_length(value: u32) -> Option<usize>
    ensures { result ≡ unless_zero (number_length value) }
{
    match value {
        0..=127 => Some(1),
        128..=16383 => Some(2),
        16384..=leb128::MAX_NUMBER => Some(3),
        _ => None,
    }
}

// The lowest group of a number, which promises another.
fn more(value: u32) -> u8
    ensures { result ≡ 128 + value % 128 }
{
    (128 + value % 128) as u8
}

// Writes a number at a place, in the fewest groups, and answers the place past it; none, and nothing is written, where it is above the largest or there is no
// room for it. Its groups are made before any is stored: how many there are is then known at each call, and no loop goes over them.
pub fn write_number(out: &mut [u8], at: usize, value: u32) -> Option<usize>
    ensures { (result ≡ unless_zero (written_past at value (length out.old))) × (out.new ≡ number_written at value out.old) }
{
    match value {
        0..=127 => put::put_groups(out, at, &[value as u8]),
        128..=16383 => put::put_groups(out, at, &[more(value), (value / 128) as u8]),
        16384..=leb128::MAX_NUMBER => put::put_groups(
            out,
            at,
            &[more(value), more(value / 128), (value / 16384) as u8],
        ),
        _ => None, // above the largest
    }
}
