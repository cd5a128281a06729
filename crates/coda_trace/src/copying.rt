// Lines, in memory of their own.
ghost use Rattle.std.specs.Prelude.{◌≡◌, true, IfOk};
ghost use Rattle.coda_site.specs.Makings.{is_disk_line};
ghost use Rattle.coda_trace.specs.Copies.{is_plain_line};
ghost use Rattle.coda_shelves.specs.Lines.{is_built};

use crate::operations::copy_task;
use coda_script::Line;
use std::alloc::AllocError;

// The same line, which crashes an actor, recovers it, or lets its disk fail.
fn copy_disk_line(line: &Line) -> Line
    requires { is_disk_line line.now ≡ true }
    ensures { result ≡ line.now }
{
    match line {
        Line::CrashClient { client, choice } => Line::CrashClient {
            client: *client,
            choice: *choice,
        },
        Line::CrashReplica {
            server,
            volume,
            choice,
        } => Line::CrashReplica {
            server: *server,
            volume: *volume,
            choice: *choice,
        },
        Line::RecoverClient { client } => Line::RecoverClient { client: *client },
        Line::RecoverReplica { server, volume } => Line::RecoverReplica {
            server: *server,
            volume: *volume,
        },
        Line::ArmClient { client, passes } => Line::ArmClient {
            client: *client,
            passes: *passes,
        },
        Line::ArmReplica {
            server,
            volume,
            passes,
        } => Line::ArmReplica {
            server: *server,
            volume: *volume,
            passes: *passes,
        },
        _ => unreachable!(),
    }
}

// The same line, which is of a link or of letters, or shows something.
fn copy_plain_line(line: &Line) -> Line
    requires { is_plain_line line.now ≡ true }
    ensures { result ≡ line.now }
{
    match line {
        Line::Link {
            client,
            server,
            strength,
        } => Line::Link {
            client: *client,
            server: *server,
            strength: *strength,
        },
        Line::Send {
            client,
            volume,
            server,
            window,
        } => Line::Send {
            client: *client,
            volume: *volume,
            server: *server,
            window: *window,
        },
        Line::Deliver { message } => Line::Deliver { message: *message },
        Line::Lose { message } => Line::Lose { message: *message },
        Line::ShowVolume { server, volume } => Line::ShowVolume {
            server: *server,
            volume: *volume,
        },
        Line::ShowLog { client, volume } => Line::ShowLog {
            client: *client,
            volume: *volume,
        },
        Line::ShowState { client, volume } => Line::ShowState {
            client: *client,
            volume: *volume,
        },
        _ => unreachable!(),
    }
}

/// The same line, of those that are built. Fails for want of memory alone.
pub fn copy_line(line: &Line) -> Result<Line, AllocError>
    requires { is_built line.now ≡ true }
    ensures { IfOk result (λ l. l ≡ line.now) }
{
    match line {
        Line::Volume {
            volume,
            servers,
            area,
        } => Ok(Line::Volume {
            volume: *volume,
            servers: servers.copy()?,
            area: *area,
        }),
        Line::Client {
            client,
            blocks,
            area,
        } => Ok(Line::Client {
            client: *client,
            blocks: *blocks,
            area: *area,
        }),
        Line::Tick { seconds } => Ok(Line::Tick { seconds: *seconds }),
        Line::Task(task) => Ok(Line::Task(copy_task(task)?)),
        Line::Link { .. } => Ok(copy_plain_line(line)),
        Line::Send { .. } => Ok(copy_plain_line(line)),
        Line::Deliver { .. } => Ok(copy_plain_line(line)),
        Line::Lose { .. } => Ok(copy_plain_line(line)),
        Line::ShowVolume { .. } => Ok(copy_plain_line(line)),
        Line::ShowLog { .. } => Ok(copy_plain_line(line)),
        Line::ShowState { .. } => Ok(copy_plain_line(line)),
        _ => Ok(copy_disk_line(line)),
    }
}
