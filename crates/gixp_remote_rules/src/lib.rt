//! Rules of a remote helper of git, without input or output: git's commands and the replies,
//! requests to the shell that starts programs, the user's settings, and the shallow boundary after
//! a fetch.
#![tactic(auto)]

mod argv;
mod batch;
mod boundary;
mod command;
mod config;
mod conversation;
mod environment;
mod fetch_reply;
mod git_answers;
mod index_pack;
pub mod laws;
mod number;
mod options;
mod policy;
mod printable;
mod proxy;
mod question;
mod quote;
mod relay;
mod relay_answer;
mod shell_io;
mod shell_request;
mod ssh;
mod text;
mod unpacking;
mod unquote;
mod uris;

pub use argv::{
    checks_connectivity, concat, fsck_arg, index_argv, object_variables, server_variables,
    upload_pack_argv, web_argv,
};
pub use batch::Batch;
pub use boundary::{
    BoundaryChange, ConnectivityCheck, ShallowPolicy, added, boundary_after, connectivity_check,
    roots, shallow_policy,
};
pub use command::{HelperCommand, parse_command};
pub use config::{ConfigEntry, Settings, is_true};
pub use conversation::{Conversation, Reaction};
pub use environment::variable_in;
pub use fetch_reply::{batch_reply, capabilities, reports_connectivity};
pub use git_answers::{MessageId, exit_status, has_reported, message_id, path_answer, time_answer};
pub use index_pack::{accepted_pack, pack_file, reported_pack};
pub use number::number_of;
pub use options::{Depth, Family, HelperOptions, OptionReply};
pub use policy::{
    PasswordPolicy, Permission, Policy, is_from_user, password_policy, permission_of,
};
pub use printable::printable_text;
pub use proxy::proxy_for;
pub use question::{
    Question, Within, listing_argv, pack_variables, question_argv, question_variables, within_of,
};
pub use quote::quoted;
pub use relay::{Relayed, pass_on};
pub use relay_answer::{AnswerLine, copy_answer, send_options};
pub use shell_io::{read_answer, write_request};
pub use shell_request::{Program, ShellRequest, ShellTask, Start, request_text};
pub use ssh::{
    SshCall, SshError, Variant, first_word, probe_argv, server_argv, ssh_argv, variant_of,
};
pub use unpacking::{may_unpack, pack_count, parse_limit, unpack_argv, unpack_limit, unpacks};
pub use uris::{
    DownloadError, UriSetting, download_argv, downloaded_pack, fsck_pack_argv, has_pack_name,
    lists_gitmodules, part_argv, uri_setting,
};
