// The calls that a line can ask for, with its fields.
ghost use Rattle.std.specs.Prelude.{◌≡◌};
ghost use Rattle.files.specs.Effect.{create, write, shorten, link, unlink, rename};
ghost use Rattle.checkpoint.specs.Live.{left, live, world};
ghost use Rattle.script_lines.specs.Ask.{num, field, text_from};

use answers::Answer;
use entries::Kind;
use script_lines::forms::{field, num, text_from};

pub fn create(
    kind: Kind,
    line: &[u8],
    store: &mut [u8],
    image: &mut [u8],
    desk: &mut [u8],
) -> Answer
    ensures { left result store.new image.new desk.new
        ≡ live (create (num line.now 1) (field line.now 2) kind) (world store.old image.old desk.old) }
{
    watch::create(store, image, desk, num(line, 1), field(line, 2), kind)
}

pub fn write(line: &[u8], store: &mut [u8], image: &mut [u8], desk: &mut [u8]) -> Answer
    ensures { left result store.new image.new desk.new
        ≡ live (write (num line.now 1) (num line.now 2) (text_from line.now 3)) (world store.old image.old desk.old) }
{
    watch::write(
        store,
        image,
        desk,
        num(line, 1),
        num(line, 2),
        text_from(line, 3),
    )
}

pub fn shorten(line: &[u8], store: &mut [u8], image: &mut [u8], desk: &mut [u8]) -> Answer
    ensures { left result store.new image.new desk.new
        ≡ live (shorten (num line.now 1) (num line.now 2)) (world store.old image.old desk.old) }
{
    watch::shorten(store, image, desk, num(line, 1), num(line, 2))
}

pub fn link(line: &[u8], store: &mut [u8], image: &mut [u8], desk: &mut [u8]) -> Answer
    ensures { left result store.new image.new desk.new
        ≡ live (link (num line.now 1) (field line.now 2) (num line.now 3)) (world store.old image.old desk.old) }
{
    watch::link(
        store,
        image,
        desk,
        num(line, 1),
        field(line, 2),
        num(line, 3),
    )
}

pub fn unlink(line: &[u8], store: &mut [u8], image: &mut [u8], desk: &mut [u8]) -> Answer
    ensures { left result store.new image.new desk.new
        ≡ live (unlink (num line.now 1) (field line.now 2)) (world store.old image.old desk.old) }
{
    watch::unlink(store, image, desk, num(line, 1), field(line, 2))
}

pub fn rename(line: &[u8], store: &mut [u8], image: &mut [u8], desk: &mut [u8]) -> Answer
    ensures { left result store.new image.new desk.new
        ≡ live (rename (num line.now 1) (field line.now 2) (num line.now 3) (field line.now 4)) (world store.old image.old desk.old) }
{
    watch::rename(
        store,
        image,
        desk,
        num(line, 1),
        field(line, 2),
        num(line, 3),
        field(line, 4),
    )
}
