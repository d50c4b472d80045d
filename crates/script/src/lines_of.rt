// The lines of a script, one after the other.
ghost use Rattle.std.specs.Prelude.{◌≡◌, ◌≤◌, length};
ghost use Rattle.layout.specs.Sizes.{header_bytes};
ghost use Rattle.desk.specs.Sizes.{desk_header_bytes};
ghost use Rattle.checkpoint.specs.Live.{world};
ghost use Rattle.script_lines.specs.Lines.{most_script_bytes, script_lines};
ghost use Rattle.script_run.specs.Script.{lines_run, fresh, script_prints};

use crate::print;
use script_lines::{after, line, start};

// All lines, in order, from the fresh buffers on: the reader is moved behind each. How many bytes
// they print, so that a line which changes nothing has its turn too.
pub fn run(script: &[u8], store: &mut [u8], image: &mut [u8], desk: &mut [u8]) -> usize
    requires { (header_bytes ≤ length image.old) × (desk_header_bytes ≤ length desk.old) × (length script.now ≤ most_script_bytes) × (world store.old image.old desk.old ≡ fresh) }
    ensures { (world store.new image.new desk.new ≡ lines_run (script_lines script.now) fresh) × (result ≡ length (script_prints script.now)) }
{
    let mut r = start(script);
    let mut bytes = 0;
    while r.at < script.len() {
        let b = print::line(line(r), &mut *store, &mut *image, &mut *desk);
        bytes += b;
        r = after(r);
    }
    bytes
}
