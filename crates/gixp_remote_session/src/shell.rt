//! The shell that starts and ends programs. It answers each request with a number.
ghost use Rattle.std.specs.Prelude.{◌≡◌, ◌↔◌, IfOk, IsOk, map};
ghost use Rattle.std.specs.Result.{result_ok};
ghost use Rattle.gixp_remote_rules.specs.GitAnswers.{exit_status};
ghost use Rattle.bstr.specs.Owned.{bstring_bytes};

use crate::error::Error;
use crate::pack::state::PackState;
use crate::pipes::{PROGRAM_OUTPUT, WATCHER};
use bstr::BString;
use gixp_remote_rules::{
    Program, Question, ShellRequest, ShellTask, Start, exit_status, question_argv,
    question_variables, read_answer, write_request,
};
use std::alloc::Global;
use std::fs;
use std::fs::{File, OpenOptions};
use std::io::{BufReader, Write};

/// The error if the shell can't start a program.
pub(crate) const NOT_STARTED: &str = "a program can't be started";

/// Standard input of a program that reads nothing.
pub(crate) const NOTHING: &str = "/dev/null";

// Fails unless the shell started a program.
fn expect_start(answer: u32) -> Result<(), Error>
    ensures { IsOk result ↔ (answer ≡ 0) }
{
    if answer == 0 {
        Ok(())
    } else {
        Err(Error::Other(NOT_STARTED))
    }
}

// The exit status in an answer of the shell.
fn expect_status(answer: u32) -> Result<u32, Error>
    ensures { result_ok result ≡ exit_status answer }
{
    match exit_status(answer) {
        Some(status) => Ok(status),
        None => Err(Error::Other("a program that was to be waited for was not started")),
    }
}

/// The shell, and the pipes to it and from it.
#[derive(Drop)]
pub(crate) struct Shell {
    alloc: Global,
    requests: File,
    answers: BufReader<File>,
    // The number of requests without an answer.
    unanswered: u64,
    // The pipe to the process that watches git.
    watcher: File,
    // Whether it watches.
    is_watched: bool,
    // Whether git was asked for the paths of the repository, and the answer wasn't read yet.
    asks_paths: bool,
    /// The state of the last pack.
    pub(crate) pack: PackState,
    /// Whether git listed a `.gitmodules` file that is not in its pack.
    pub(crate) lists_gitmodules: bool,
    /// Whether the server is at the end of a socket, so that it has no exit status.
    pub(crate) has_socket: bool,
}

/// The output of a program, and its exit status.
#[derive(Drop)]
pub(crate) struct GitOutput {
    pub(crate) status: u32,
    pub(crate) text: Vec<u8>,
}

impl Shell {
    /// Opens the pipes to the shell and from it.
    pub(crate) fn open(rt: &HostRuntime, requests: &str, answers: &str) -> Result<Shell, Error> {
        let alloc = rt.alloc();
        let requests = OpenOptions::new().write(true).open(rt, requests)?;
        let answers = BufReader::new(alloc, File::open(rt, answers)?)?;
        Ok(Shell {
            alloc,
            requests,
            answers,
            unanswered: 0,
            watcher: OpenOptions::new().write(true).open(rt, WATCHER)?,
            is_watched: false,
            asks_paths: false,
            pack: PackState::Unbegun,
            lists_gitmodules: false,
            has_socket: false,
        })
    }

    /// Sends a request. Doesn't wait for the answer.
    pub(crate) fn send(&mut self, request: &ShellRequest<'_>) -> Result<(), Error> {
        write_request(self.alloc, &mut self.requests, request)?;
        self.unanswered = self.unanswered.saturating_add(1);
        Ok(())
    }

    /// Waits for the answers to all requests, and returns the last. Only requests to start a program
    /// are sent without a wait for the answer, so each earlier answer must be 0.
    pub(crate) fn wait_answers(&mut self) -> Result<u32, Error> {
        let count = self.unanswered;
        self.unanswered = 0;
        let mut last = 0;
        for _ in 0..count {
            expect_start(last)?;
            last = read_answer(self.alloc, &mut self.answers)?;
        }
        Ok(last)
    }

    /// Sends a request, and waits for the answer.
    pub(crate) fn ask(&mut self, request: &ShellRequest<'_>) -> Result<u32, Error> {
        self.send(request)?;
        self.wait_answers()
    }

    /// Starts a program, and waits until it is started.
    pub(crate) fn start(&mut self, start: Start<'_>) -> Result<(), Error> {
        expect_start(self.ask(&ShellRequest::Start(start))?)
    }

    /// Waits until a program exits, and returns its exit status.
    pub(crate) fn status(&mut self, task: ShellTask) -> Result<u32, Error> {
        self.send(&ShellRequest::Status(task))?;
        self.wait_status()
    }

    /// Waits for the exit status of a program, which was the last request.
    pub(crate) fn wait_status(&mut self) -> Result<u32, Error> {
        expect_status(self.wait_answers()?)
    }

    /// From now on the helper ends if git exits.
    pub(crate) fn start_watch(&mut self) -> Result<(), Error> {
        if !self.is_watched {
            self.watcher.write_all(b"watch\n")?;
            self.is_watched = true;
        }
        Ok(())
    }

    /// Ends that. Called before the helper writes to git, which may write then.
    pub(crate) fn stop_watch(&mut self) -> Result<(), Error> {
        self.watcher.write_all(b"rest\n")?;
        self.is_watched = false;
        Ok(())
    }

    /// Kills a program, if it runs.
    pub(crate) fn end(&mut self, task: ShellTask) -> Result<(), Error> {
        self.ask(&ShellRequest::End(task))?;
        Ok(())
    }

    /// Reads the output of a program that was started, and waits for its exit status.
    pub(crate) fn read_output(
        &mut self,
        rt: &HostRuntime,
        task: ShellTask,
    ) -> Result<GitOutput, Error> {
        self.asks_paths = false;
        expect_start(self.wait_answers()?)?;
        let text = fs::read(rt, PROGRAM_OUTPUT)?;
        let status = self.status(task)?;
        Ok(GitOutput { status, text })
    }

    /// Asks git for the paths of the repository, unless that was done.
    pub(crate) fn ask_paths(&mut self) -> Result<(), Error> {
        if !self.asks_paths {
            self.start_question(Question::Paths)?;
            self.asks_paths = true;
        }
        Ok(())
    }

    // Starts a question to git. Doesn't wait for the answer.
    fn start_question(&mut self, question: Question<'_>) -> Result<(), Error> {
        let argv = question_argv(self.alloc, question)?;
        let variables = question_variables(self.alloc, &[])?;
        self.send(&ShellRequest::Start(Start {
            task: ShellTask::Question,
            program: Program::Git,
            input: NOTHING,
            output: PROGRAM_OUTPUT,
            variables: &variables,
            argv: &argv,
        }))
    }

    /// Runs a program, and waits for its output and exit status.
    pub(crate) fn run(
        &mut self,
        rt: &HostRuntime,
        task: ShellTask,
        program: Program,
        input: &str,
        variables: &[BString],
        argv: &[BString],
    ) -> Result<GitOutput, Error> {
        let start = Start {
            task,
            program,
            input,
            output: PROGRAM_OUTPUT,
            variables,
            argv,
        };
        self.send(&ShellRequest::Start(start))?;
        self.read_output(rt, task)
    }

    /// Asks git a question, and waits for the answer.
    pub(crate) fn ask_git(
        &mut self,
        rt: &HostRuntime,
        question: Question<'_>,
    ) -> Result<GitOutput, Error> {
        self.start_question(question)?;
        self.read_output(rt, ShellTask::Question)
    }
}

pub(crate) fn owned_argv(alloc: Global, argv: &[&[u8]]) -> Result<Vec<BString>, Error>
    ensures { IfOk result (λ all. map bstring_bytes all.items ≡ map (λ w. w.now) argv.now) }
{
    let mut all = Vec::new(alloc);
    for word in argv {
        all.push(BString::from_slice(alloc, *word)?)?;
    }
    Ok(all)
}
