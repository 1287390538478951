// The letters in front of a word of eight bytes, all bytes at once.
ghost use Rattle.std.specs.Prelude.{◌≡◌, true, ◌≤◌, take};
ghost use Rattle.lists.specs.Scan.{all};
ghost use Rattle.spec_numbers.specs.LittleEndian.{le_bytes};
ghost use Rattle.spec_sheet.specs.Scan.{is_name_byte};

// How many letters w opens with. Each byte is made a lower-case one below 128; the two sums carry into its highest bit from `a` on
// and behind `z`, so that they differ there for a letter alone; a byte from 128 on keeps that bit.
pub(crate) fn letters_in_front(w: u64) -> usize
    ensures { (result ≤ 8) × (all is_name_byte (take result (le_bytes 8 w)) ≡ true) }
{
    let lower = (w | 0x2020_2020_2020_2020) & 0x7f7f_7f7f_7f7f_7f7f;
    let from_a = lower + 0x1f1f_1f1f_1f1f_1f1f;
    let behind_z = lower + 0x0505_0505_0505_0505;
    let others = ((from_a ^ behind_z ^ 0x8080_8080_8080_8080) | w) & 0x8080_8080_8080_8080;
    (u64::trailing_zeros(others) / 8) as usize
}
