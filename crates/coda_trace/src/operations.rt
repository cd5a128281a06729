// What a client does, in memory of its own.
ghost use Rattle.std.specs.Prelude.{◌≡◌, true, IfOk};
ghost use Rattle.coda_cell.specs.Steps.{is_built_task};
ghost use Rattle.coda_site.specs.Tasks.{is_making, is_changing};

use coda_script::{Content, Task};
use std::alloc::AllocError;

// The same content.
fn copy_content(content: &Content) -> Result<Content, AllocError>
    ensures { IfOk result (λ c. c ≡ content.now) }
{
    match content {
        Content::Text(bytes) => Ok(Content::Text(bytes.copy()?)),
        Content::Fill { length, byte } => Ok(Content::Fill {
            length: *length,
            byte: *byte,
        }),
    }
}

// The same task, which makes an object.
fn copy_making(task: &Task) -> Result<Task, AllocError>
    requires { is_making task.now ≡ true }
    ensures { IfOk result (λ t. t ≡ task.now) }
{
    match task {
        Task::Create {
            client,
            volume,
            path,
            mode,
            owner,
        } => Ok(Task::Create {
            client: *client,
            volume: *volume,
            path: path.copy()?,
            mode: *mode,
            owner: *owner,
        }),
        Task::Mkdir {
            client,
            volume,
            path,
            mode,
            owner,
        } => Ok(Task::Mkdir {
            client: *client,
            volume: *volume,
            path: path.copy()?,
            mode: *mode,
            owner: *owner,
        }),
        Task::Symlink {
            client,
            volume,
            path,
            target,
        } => Ok(Task::Symlink {
            client: *client,
            volume: *volume,
            path: path.copy()?,
            target: target.copy()?,
        }),
        _ => unreachable!(),
    }
}

// The same task, which changes an object, removes or moves it.
fn copy_changing(task: &Task) -> Result<Task, AllocError>
    requires { is_changing task.now ≡ true }
    ensures { IfOk result (λ t. t ≡ task.now) }
{
    match task {
        Task::Setattr {
            client,
            volume,
            path,
            attrs,
        } => Ok(Task::Setattr {
            client: *client,
            volume: *volume,
            path: path.copy()?,
            attrs: *attrs,
        }),
        Task::Remove {
            client,
            volume,
            path,
        } => Ok(Task::Remove {
            client: *client,
            volume: *volume,
            path: path.copy()?,
        }),
        Task::Rmdir {
            client,
            volume,
            path,
        } => Ok(Task::Rmdir {
            client: *client,
            volume: *volume,
            path: path.copy()?,
        }),
        Task::Rename {
            client,
            volume,
            from,
            to,
        } => Ok(Task::Rename {
            client: *client,
            volume: *volume,
            from: from.copy()?,
            to: to.copy()?,
        }),
        _ => unreachable!(),
    }
}

/// The same task, of those that are built. Fails for want of memory alone.
pub fn copy_task(task: &Task) -> Result<Task, AllocError>
    requires { is_built_task task.now ≡ true }
    ensures { IfOk result (λ t. t ≡ task.now) }
{
    match task {
        Task::Create { .. } => copy_making(task),
        Task::Mkdir { .. } => copy_making(task),
        Task::Symlink { .. } => copy_making(task),
        Task::Store {
            client,
            volume,
            path,
            content,
        } => Ok(Task::Store {
            client: *client,
            volume: *volume,
            path: path.copy()?,
            content: copy_content(content)?,
        }),
        Task::Read {
            client,
            volume,
            path,
        } => Ok(Task::Read {
            client: *client,
            volume: *volume,
            path: path.copy()?,
        }),
        Task::List {
            client,
            volume,
            path,
        } => Ok(Task::List {
            client: *client,
            volume: *volume,
            path: path.copy()?,
        }),
        Task::Drain {
            client,
            volume,
            server,
            window,
        } => Ok(Task::Drain {
            client: *client,
            volume: *volume,
            server: *server,
            window: *window,
        }),
        _ => copy_changing(task),
    }
}
