// Document 02, L5: the strides of Nearest's walk for the two standard weightings, read and not worked out.
#![tactic(auto)]

ghost use Rattle.std.specs.Prelude.{◌≡◌, [], get_or};
ghost use Rattle.stride_rows.specs.Strides.{row_of, stride_table};

// A row for each classic flag and presence pattern: the strides of n320, n300, n200, n100 and n50 after the classic pair is folded, 1
// where there is no middle. Behind each row its number and the missing weights; one in brackets is folded away. The compiler writes what
// may be read of a constant to the stack at each read, so the entries are u8.
const STRIDES: [[u8; 5]; 64] = [
    [1, 51, 17, 51, 1], // 0: 61 60 40 20 10
    [1, 1, 5, 5, 1], // 1: 60 40 20 10
    [1, 1, 17, 51, 1], // 2: 61 40 20 10
    [1, 1, 1, 3, 1], // 3: 40 20 10
    [1, 51, 1, 51, 1], // 4: 61 60 20 10
    [1, 1, 1, 5, 1], // 5: 60 20 10
    [1, 1, 1, 51, 1], // 6: 61 20 10
    [1, 1, 1, 1, 1], // 7: 20 10
    [1, 51, 17, 1, 1], // 8: 61 60 40 10
    [1, 1, 5, 1, 1], // 9: 60 40 10
    [1, 1, 17, 1, 1], // 10: 61 40 10
    [1, 1, 1, 1, 1], // 11: 40 10
    [1, 51, 1, 1, 1], // 12: 61 60 10
    [1, 1, 1, 1, 1], // 13: 60 10
    [1, 1, 1, 1, 1], // 14: 61 10
    [1, 1, 1, 1, 1], // 15: 10
    [1, 41, 41, 1, 1], // 16: 61 60 40 20
    [1, 1, 2, 1, 1], // 17: 60 40 20
    [1, 1, 41, 1, 1], // 18: 61 40 20
    [1, 1, 1, 1, 1], // 19: 40 20
    [1, 41, 1, 1, 1], // 20: 61 60 20
    [1, 1, 1, 1, 1], // 21: 60 20
    [1, 1, 1, 1, 1], // 22: 61 20
    [1, 1, 1, 1, 1], // 23: 20
    [1, 21, 1, 1, 1], // 24: 61 60 40
    [1, 1, 1, 1, 1], // 25: 60 40
    [1, 1, 1, 1, 1], // 26: 61 40
    [1, 1, 1, 1, 1], // 27: 40
    [1, 1, 1, 1, 1], // 28: 61 60
    [1, 1, 1, 1, 1], // 29: 60
    [1, 1, 1, 1, 1], // 30: 61
    [1, 1, 1, 1, 1], // 31: none
    [1, 1, 5, 5, 1], // 32: 60 (60) 40 20 10
    [1, 1, 5, 5, 1], // 33: 60 40 20 10
    [1, 1, 5, 5, 1], // 34: 60 40 20 10
    [1, 1, 1, 3, 1], // 35: 40 20 10
    [1, 1, 1, 5, 1], // 36: 60 (60) 20 10
    [1, 1, 1, 5, 1], // 37: 60 20 10
    [1, 1, 1, 5, 1], // 38: 60 20 10
    [1, 1, 1, 1, 1], // 39: 20 10
    [1, 1, 5, 1, 1], // 40: 60 (60) 40 10
    [1, 1, 5, 1, 1], // 41: 60 40 10
    [1, 1, 5, 1, 1], // 42: 60 40 10
    [1, 1, 1, 1, 1], // 43: 40 10
    [1, 1, 1, 1, 1], // 44: 60 (60) 10
    [1, 1, 1, 1, 1], // 45: 60 10
    [1, 1, 1, 1, 1], // 46: 60 10
    [1, 1, 1, 1, 1], // 47: 10
    [1, 1, 2, 1, 1], // 48: 60 (60) 40 20
    [1, 1, 2, 1, 1], // 49: 60 40 20
    [1, 1, 2, 1, 1], // 50: 60 40 20
    [1, 1, 1, 1, 1], // 51: 40 20
    [1, 1, 1, 1, 1], // 52: 60 (60) 20
    [1, 1, 1, 1, 1], // 53: 60 20
    [1, 1, 1, 1, 1], // 54: 60 20
    [1, 1, 1, 1, 1], // 55: 20
    [1, 1, 1, 1, 1], // 56: 60 (60) 40
    [1, 1, 1, 1, 1], // 57: 60 40
    [1, 1, 1, 1, 1], // 58: 60 40
    [1, 1, 1, 1, 1], // 59: 40
    [1, 1, 1, 1, 1], // 60: 60 (60)
    [1, 1, 1, 1, 1], // 61: 60
    [1, 1, 1, 1, 1], // 62: 60
    [1, 1, 1, 1, 1], // 63: none
];

// A row as the walk's numbers.
fn widened(row: [u8; 5]) -> [u32; 5]
    ensures { result ≡ row }
{
    row.map(u32::from)
}

// The strides of a standard weighting where these counts are given; bits of presence above N50 are not looked at. Each half of the table
// is read in a branch of its own, so that the other is not written.
pub fn stride_row(classic: bool, presence: u8) -> [u32; 5]
    ensures { result ≡ get_or stride_table (row_of classic presence) [] }
{
    let bits = (presence % 32) as usize;
    if classic {
        let row = 32 + bits;
        widened(STRIDES[row])
    } else {
        widened(STRIDES[bits])
    }
}
