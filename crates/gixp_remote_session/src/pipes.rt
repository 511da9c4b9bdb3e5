//! The files over which the shell starts programs. The shell holds one end of each pipe. The
//! working directory is the folder of the shell's open files (proc(5), `/proc/PID/fd`), so each
//! pipe is a file there.

/// The startup input, and then git's configuration.
pub(crate) const STARTUP: &str = "9";

/// To the server.
pub(crate) const TO_SERVER: &str = "20";

/// From the server.
pub(crate) const FROM_SERVER: &str = "21";

/// From git or another program that answers a question.
pub(crate) const PROGRAM_OUTPUT: &str = "22";

/// From git that lists the objects of refs.
pub(crate) const REFS: &str = "23";

/// From git that lists commits.
pub(crate) const COMMITS: &str = "24";

/// To git that receives a pack.
pub(crate) const PACK_INPUT: &str = "25";

/// From git that receives a pack.
pub(crate) const PACK_OUTPUT: &str = "26";

/// To the process that watches whether git still runs.
pub(crate) const WATCHER: &str = "27";

/// The file of ids for git, in the last folder.
pub(crate) const IDS: &str = "ids";

/// The file of the new boundary, in the last folder.
pub(crate) const BOUNDARY: &str = "boundary";
