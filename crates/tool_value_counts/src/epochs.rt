//! Authors in their epochs.
use photo_version::Author;

/// `Author::at`, `epoch` and `next`.
pub fn are_epochs_right() -> bool {
    let author = Author::at(7, 3);
    author.value() == 7
        && author.epoch() == 3
        && author.next() == Some(Author::at(7, 4))
        && Author::at(7, u32::MAX).next().is_none()
}
