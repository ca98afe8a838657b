ghost use Rattle.std.specs.Prelude.{◌≡◌, ◌<◌, ◌≤◌, true, length};
ghost use Rattle.rv_exec.specs.Window.{fits};
ghost use Rattle.posix_model.specs.Calls as calls;
ghost use Rattle.kernel_state.specs.View.{view};
ghost use Rattle.kernel_state.specs.Begun.{CanNote, HasNotedSome};

use kernel_state::{Change, Kernel};
use posix_model::{Arguments, Reply};
use ready_queues::Ready;
use rv_exec::Memory;
use thread_base::{Errno, Tid};

/// The most bytes that one write writes.
const MOST_WRITTEN: u32 = 65_536;

/// Writes the first bytes of a buffer to a descriptor, by POSIX.1 write.
pub(crate) fn write<R: Ready + Drop>(k: &mut Kernel<R>, t: Tid, c: Arguments) -> Reply
    requires { CanNote R.order k.old t }
    ensures noted { HasNotedSome R.order k.old k.new (calls.write (view R.order k.old.tables) t c).outcome }
    ensures reply { result ≡ (calls.write (view R.order k.old.tables) t c).reply }
{
    if c.a0 != 1 && c.a0 != 2 {
        return k.refuse(t, Errno::EBADF);
    }
    if !can_read(k.tables().memory(), c.a1, c.a2) {
        return k.refuse(t, Errno::EFAULT);
    }
    let count = c.a2.min(MOST_WRITTEN);
    note_written(k, t, c, count);
    Reply::Values(0, count)
}

/// Notes that so many bytes of a buffer in the window were written.
fn note_written<R: Ready + Drop>(k: &mut Kernel<R>, t: Tid, c: Arguments, count: u32)
    requires ready { CanNote R.order k.old t }
    requires inside { fits (length (view R.order k.old.tables).memory) c.a1 c.a2 ≡ true }
    requires fewer { count ≤ c.a2 }
    ensures { HasNotedSome R.order k.old k.new (calls.written (view R.order k.old.tables) t c count).outcome }
{
    let answer = Change::reply(t, 0, count);
    if count == 0 {
        k.note_one(t, answer);
    } else {
        let output = Change::Output {
            descriptor: c.a0,
            buffer: c.a1,
            length: count,
        };
        k.note_two(t, output, answer);
    }
}

/// Whether the bytes of a buffer are all in the window; of none it is true.
fn can_read(memory: &Memory, addr: u32, len: u32) -> bool
    ensures { result ≡ fits (length memory.now) addr len }
{
    len == 0 || memory.has(addr, len as usize)
}
