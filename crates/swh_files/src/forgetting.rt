// What the kernel holds of a file in memory.
use std::fs::File;
use std::os::fd::AsRawFd;

/// Makes the kernel forget what it holds of a file, after a write or a barrier on it that failed. The kernel may have
/// taken for written what the device did not take: the next barrier would go well, and a read give bytes that a crash
/// loses. From here on a read gives what the device has. What comes of it need not be told: the call has failed already.
pub fn forget_cached(file: &File) {
    let _ = libc::posix_fadvise(file.as_raw_fd(), 0, 0, libc::POSIX_FADV_DONTNEED);
}
