// What a command that reads a schedule is given: a file, or standard input, and options.
use crate::source::schedule;
use crate::stop::{Stop, tell, unknown};
use schedule::Schedule;
use std::env::Args;

// The schedule, and whether it is to be shown with its boards.
#[derive(Drop)]
pub struct Given {
    pub schedule: Schedule,
    pub show: bool,
}

#[derive(Default, Drop)]
struct Arguments {
    // none: standard input
    path: Option<String>,
    show: bool,
}

impl Arguments {
    fn path(&self) -> &str {
        self.path.as_ref().map_or("-", |path| path.as_str())
    }

    fn take(&mut self, rt: &HostRuntime, arg: String, knows_show: bool) -> Result<(), Stop> {
        match arg.as_str() {
            "--show" if knows_show => self.show = true,
            text if text != "-" && text.starts_with("-") => {
                return Err(unknown(rt, "option", text));
            }
            _ if self.path.is_some() => return Err(tell(rt, "one file only")),
            _ => self.path = Some(arg),
        }
        Ok(())
    }
}

impl Given {
    // The file, which may be left out, and `--show` where the command knows it. Says what is wrong with a schedule.
    pub fn read(rt: &HostRuntime, args: Args, knows_show: bool) -> Result<Given, Stop> {
        let mut arguments = Arguments::default();
        for arg in args {
            arguments.take(rt, arg, knows_show)?;
        }
        Ok(Given {
            schedule: schedule(rt, arguments.path())?,
            show: arguments.show,
        })
    }
}
