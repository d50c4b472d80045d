// The file calls over store, image and desk but look up and read: guards, then the call behind them and what it writes for a running
// copy. Any bytes may be lent; a refused call changes nothing.
#![tactic(auto)]

mod notes;
mod work;

ghost use Rattle.std.specs.Prelude.{◌≡◌};
ghost use Rattle.files.specs.Effect.{create, write, shorten, link, unlink, rename, rename_new};
ghost use Rattle.checkpoint.specs.Live.{left, live, world};

use answers::Answer;
use entries::Kind;
use guards::three_guards;

pub fn create(
    store: &mut [u8],
    image: &mut [u8],
    desk: &mut [u8],
    dir: usize,
    name: &[u8],
    kind: Kind,
) -> Answer
    ensures { left result store.new image.new desk.new
        ≡ live (create dir name.now kind) (world store.old image.old desk.old) }
{
    let w = three_guards(store, image, desk)?;
    work::create(&mut *store, &mut *desk, w, dir, name, kind)
}

pub fn write(
    store: &mut [u8],
    image: &mut [u8],
    desk: &mut [u8],
    inode: usize,
    offset: usize,
    bytes: &[u8],
) -> Answer
    ensures { left result store.new image.new desk.new
        ≡ live (write inode offset bytes.now) (world store.old image.old desk.old) }
{
    let w = three_guards(store, image, desk)?;
    work::write(&mut *store, w, inode, offset, bytes)
}

pub fn shorten(
    store: &mut [u8],
    image: &mut [u8],
    desk: &mut [u8],
    inode: usize,
    size: usize,
) -> Answer
    ensures { left result store.new image.new desk.new
        ≡ live (shorten inode size) (world store.old image.old desk.old) }
{
    let w = three_guards(store, image, desk)?;
    work::shorten(&mut *store, w, inode, size)
}

pub fn link(
    store: &mut [u8],
    image: &mut [u8],
    desk: &mut [u8],
    dir: usize,
    name: &[u8],
    inode: usize,
) -> Answer
    ensures { left result store.new image.new desk.new
        ≡ live (link dir name.now inode) (world store.old image.old desk.old) }
{
    let w = three_guards(store, image, desk)?;
    work::link(&mut *store, &mut *desk, w, dir, name, inode)
}

pub fn unlink(
    store: &mut [u8],
    image: &mut [u8],
    desk: &mut [u8],
    dir: usize,
    name: &[u8],
) -> Answer
    ensures { left result store.new image.new desk.new
        ≡ live (unlink dir name.now) (world store.old image.old desk.old) }
{
    let w = three_guards(store, image, desk)?;
    work::unlink(&mut *store, &mut *image, &mut *desk, w, dir, name)
}

// The phone app's rename, which replaces.
pub fn rename(
    store: &mut [u8],
    image: &mut [u8],
    desk: &mut [u8],
    dir: usize,
    name: &[u8],
    to_dir: usize,
    to_name: &[u8],
) -> Answer
    ensures { left result store.new image.new desk.new
        ≡ live (rename dir name.now to_dir to_name.now) (world store.old image.old desk.old) }
{
    let w = three_guards(store, image, desk)?;
    work::rename(
        &mut *store,
        &mut *image,
        &mut *desk,
        w,
        dir,
        name,
        to_dir,
        to_name,
    )
}

// The lap recorder's rename, which keeps what has the new name.
pub fn rename_new(
    store: &mut [u8],
    image: &mut [u8],
    desk: &mut [u8],
    dir: usize,
    name: &[u8],
    to_dir: usize,
    to_name: &[u8],
) -> Answer
    ensures { left result store.new image.new desk.new
        ≡ live (rename_new dir name.now to_dir to_name.now) (world store.old image.old desk.old) }
{
    let w = three_guards(store, image, desk)?;
    work::rename_new(
        &mut *store,
        &mut *image,
        &mut *desk,
        w,
        dir,
        name,
        to_dir,
        to_name,
    )
}
