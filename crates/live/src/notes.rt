// What a file call writes on the desk for a running copy: marks. h is the desk's header, n the inode count.
ghost use Rattle.std.specs.Prelude.{◌≡◌, ◌<◌, ◌≤◌, length};
ghost use Rattle.directory.specs.Slot.{most_slots};
ghost use Rattle.desk.specs.Sizes.{desk_length};
ghost use Rattle.desk.specs.Desk.{desk_of};
ghost use Rattle.checkpoint.specs.Notes.{note_made, note_taken};

use desk::Desk;

// While the copy runs, the entry made in slot t of directory e is marked.
pub fn note_made(d: &mut [u8], h: Desk, n: usize, e: usize, t: usize)
    requires { (h ≡ desk_of d.old) × (1 ≤ e) × (e ≤ n) × (desk_length n ≤ length d.old) × (t < most_slots) }
    ensures { d.new ≡ note_made d.old n e t }
{
    if h.runs() {
        desk::set_mark(&mut *d, n, e, t);
    }
}

// While the copy runs, the mark of the entry taken from slot t of directory e is cleared.
pub fn note_taken(d: &mut [u8], h: Desk, n: usize, e: usize, t: usize)
    requires { (h ≡ desk_of d.old) × (1 ≤ e) × (e ≤ n) × (desk_length n ≤ length d.old) × (t < most_slots) }
    ensures { d.new ≡ note_taken d.old n e t }
{
    if h.runs() {
        desk::clear_mark(&mut *d, n, e, t);
    }
}
