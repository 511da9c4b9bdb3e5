//! The text of an I/O error's kind.
ghost use Rattle.std.specs.Prelude.{◌≡◌};
ghost use Rattle.gixp_fetch_common.specs.ErrorKindText.{kind_text};

use std::io::ErrorKind;

/// The text of a kind, as the C library's `strerror` has it.
pub(crate) fn kind_text(kind: ErrorKind) -> &'static str
    ensures { result.now ≡ kind_text kind }
{
    match kind {
        ErrorKind::NotFound => "No such file or directory",
        ErrorKind::PermissionDenied => "Permission denied",
        ErrorKind::AlreadyExists => "File exists",
        ErrorKind::NotADirectory => "Not a directory",
        ErrorKind::IsADirectory => "Is a directory",
        ErrorKind::ReadOnlyFilesystem => "Read-only file system",
        ErrorKind::FilesystemLoop => "Too many levels of symbolic links",
        ErrorKind::InvalidFilename => "File name too long",
        ErrorKind::StorageFull => "No space left on device",
        ErrorKind::QuotaExceeded => "Disk quota exceeded",
        ErrorKind::FileTooLarge => "File too large",
        ErrorKind::BrokenPipe => "Broken pipe",
        ErrorKind::ConnectionReset => "Connection reset by peer",
        ErrorKind::TimedOut => "Connection timed out",
        ErrorKind::ResourceBusy => "Device or resource busy",
        ErrorKind::CrossesDevices => "Invalid cross-device link",
        ErrorKind::InvalidData => "its content is malformed",
        ErrorKind::UnexpectedEof => "it ends too early",
        ErrorKind::WriteZero => "it takes no more",
        ErrorKind::Interrupted => "Interrupted system call",
        ErrorKind::OutOfMemory => "Cannot allocate memory",
        _ => "Input/output error",
    }
}
