// What a line prints.
ghost use Rattle.std.specs.Prelude.{◌≡◌, ◌≤◌, length};
ghost use Rattle.layout.specs.Sizes.{header_bytes};
ghost use Rattle.desk.specs.Sizes.{desk_header_bytes};
ghost use Rattle.text.specs.Put.{Put};
ghost use Rattle.checkpoint.specs.Live.{world};
ghost use Rattle.script_listing.specs.Listing.{most_printed};
ghost use Rattle.script_run.specs.Reply.{world_after};
ghost use Rattle.script_run.specs.Script.{printed, FinishesSound, script_inodes};

use script_listing::put_printed;
use text::pieces::front;

const STDOUT_FILENO: i32 = 1;

// No line prints more: `most_printed` of a store of 16 inodes.
const MOST_PRINTED: usize = 93831;

// Runs a line, and puts all that it prints at the start of out; where that ends.
fn put_line(
    out: &mut [u8],
    line: &[u8],
    store: &mut [u8],
    image: &mut [u8],
    desk: &mut [u8],
) -> usize
    requires { (most_printed script_inodes ≤ length out.old) × (header_bytes ≤ length image.old) × (desk_header_bytes ≤ length desk.old) × FinishesSound (world store.old image.old desk.old) }
    ensures desk_after { world store.new image.new desk.new
        ≡ world_after line.now (world store.old image.old desk.old) }
    ensures put { Put out.old 0 (printed line.now (world store.old image.old desk.old)) result out.new }
{
    let r = script_run::run::run(line, &mut *store, &mut *image, &mut *desk);
    put_printed(out, r.answer, r.finished, &*image, &*desk)
}

// Runs a line, and writes what it prints; how many bytes that is.
pub fn line(line: &[u8], store: &mut [u8], image: &mut [u8], desk: &mut [u8]) -> usize
    requires { (header_bytes ≤ length image.old) × (desk_header_bytes ≤ length desk.old) × FinishesSound (world store.old image.old desk.old) }
    ensures { (world store.new image.new desk.new ≡ world_after line.now (world store.old image.old desk.old)) × (result ≡ length (printed line.now (world store.old image.old desk.old))) }
{
    let mut out = [0u8; MOST_PRINTED];
    let end = put_line(&mut out, line, &mut *store, &mut *image, &mut *desk);
    let text = front(&out, end);
    io::write_all(STDOUT_FILENO, text);
    text.len()
}
