// What npalist does with a block: opens or settles it, and puts the lines that it prints, in a buffer that has room for
// them: what is left of it changes with each line, so that no type holds it.

ghost use Rattle.std.specs.Prelude.{◌≡◌, true, ◌++◌, ◌+◌, ◌*◌, ◌≤◌, length};
ghost use Rattle.arrayvec.specs.ArrayVec.{array_vec_len};
ghost use Rattle.stream.specs.Code.{StepTaken};
ghost use Rattle.settling.specs.Settling.{result_bytes};
ghost use Rattle.listing.specs.Npalist.{file_lines, opening_listed, interval_listed, block_listed};
ghost use Rattle.listing.specs.Lines.{bytes_of_lines};
ghost use Rattle.listing.specs.Code.{in_bytes, Puts};
ghost use Rattle.listing.specs.Room.{refused_room, row_room, block_room};

use crate::lines::{put_pool_line, put_refused, put_row_line};
use arrayvec::ArrayVec;
use ledger::opening::open;
use reading::file::File;
use reading::header::header_of;
use settling::call::settle_file;
use settling::result::{MOST_RESULT_BYTES, row_part};

// Puts the lines of the rows of a settled file.
fn put_row_lines<const ROOM: usize>(out: &mut ArrayVec<u8, ROOM>, file: &File<'_>, res: &[u8])
    requires rows_in_result { result_bytes file.now.header.rows ≤ length res.now }
    requires room { array_vec_len out.old + row_room * file.now.header.rows ≤ ROOM }
    ensures { Puts out.old (bytes_of_lines (file_lines file.now.bytes.now res.now))
        (row_room * file.now.header.rows) out.new }
{
    let h = file.header;
    for i in 0..h.rows {
        let row = file.row(i);
        put_row_line(out, h.interval, row.id, row_part(res, i));
    }
}

// Settles an interval file with a result of zeros, and puts its lines or its refusal.
pub fn list_interval<const ROOM: usize>(
    number: u64,
    ledger: &mut [u8],
    file: &[u8],
    out: &mut ArrayVec<u8, ROOM>,
)
    requires { array_vec_len out.old + block_room ≤ ROOM }
    ensures { StepTaken (in_bytes (interval_listed number ledger.old file.now))
        ledger.new out.old.items out.new.items true }
{
    let mut res = [0u8; MOST_RESULT_BYTES];
    if let Err(refusal) = settle_file(ledger, file, &mut res) {
        put_refused(out, number, u64::from(refusal.number()));
        return;
    }
    let file = File {
        bytes: file,
        header: header_of(file),
    };
    put_row_lines(out, &file, &res);
    put_pool_line(out, file.header.interval, &res);
}

// Opens a ledger, and puts its refusal, if any; answers whether the listing goes on.
pub fn list_opening<const ROOM: usize>(
    ledger: &mut [u8],
    block: &[u8],
    out: &mut ArrayVec<u8, ROOM>,
) -> bool
    requires { array_vec_len out.old + refused_room ≤ ROOM }
    ensures { StepTaken (in_bytes (opening_listed ledger.old block.now))
        ledger.new out.old.items out.new.items result }
{
    if let Err(refusal) = open(block, ledger) {
        put_refused(out, 0, u64::from(refusal.number()));
        return false;
    }
    true
}

// Opens or settles a block, and puts what it prints; answers whether the listing goes on. The number says which, as in
// the definition: two programs over one stream, one for the opening and one for what follows, would not be plainer.
pub fn list_block<const ROOM: usize>(
    number: u64,
    ledger: &mut [u8],
    block: &[u8],
    out: &mut ArrayVec<u8, ROOM>,
) -> bool
    requires { array_vec_len out.old + block_room ≤ ROOM }
    ensures { StepTaken (in_bytes (block_listed number ledger.old block.now))
        ledger.new out.old.items out.new.items result }
{
    if number != 0 {
        list_interval(number, ledger, block, out);
        return true;
    }
    list_opening(ledger, block, out)
}
