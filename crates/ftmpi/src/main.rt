//! `ftmpi`: runs rank programs on the machine's own files and streams.
#![tactic(auto)]

use runner::{MachineFiles, Progress, command_watched, words_given};
use std::process::ExitCode;

fn main(rt: HostRuntime) -> ExitCode {
    let mut out = rt.stdout();
    let mut err = rt.stderr();
    let status = match words_given(&rt) {
        Ok(words) => {
            let mut files = MachineFiles::new(&rt);
            let mut screen = rt.stderr();
            let mut progress = Progress::new(&rt, &mut screen);
            command_watched(
                &rt,
                rt.alloc(),
                words.as_slice(),
                &mut files,
                &mut out,
                &mut err,
                &mut progress,
            )
        }
        Err(fault) => fault.tell(&mut err),
    };
    ExitCode::from(status)
}
