//! A file that stays open between calls.

/// No path of the system has more bytes.
const LONGEST: usize = 4096;

/// A file that may be kept open between calls, and its name.
///
/// The name is held in place, so that it takes no memory.
#[derive(Drop)]
pub(crate) struct Kept<F> {
    file: Option<F>,
    name: [u8; LONGEST],
    length: usize,
}

impl<F: Drop> Kept<F> {
    /// No file is kept yet.
    pub(crate) fn new() -> Kept<F> {
        Kept {
            file: None,
            name: [0; LONGEST],
            length: 0,
        }
    }

    /// The file that is kept, whichever name it has.
    pub(crate) fn any(&self) -> Option<&F> {
        self.file.as_ref()
    }

    /// The file, if it is kept under that name.
    pub(crate) fn named(&self, name: &str) -> Option<&F> {
        if self.has_name(name) {
            self.file.as_ref()
        } else {
            None
        }
    }

    /// Hands out the file, if it is kept under that name. One under another name is closed.
    pub(crate) fn take(&mut self, name: &str) -> Option<F> {
        let file = self.file.take();
        if self.has_name(name) { file } else { None }
    }

    /// Keeps this file in the place of the one before. It is closed where its name is longer than
    /// any path.
    pub(crate) fn keep(&mut self, name: &str, file: F) {
        self.close();
        if let Some(place) = self.name.get_mut(..name.len()) {
            place.copy_from_slice(name.as_bytes());
            self.length = name.len();
            self.file = Some(file);
        }
    }

    /// Closes the file, whichever name it has.
    pub(crate) fn close(&mut self) {
        self.file = None;
    }

    /// Closes the file, if it is kept under that name.
    pub(crate) fn close_named(&mut self, name: &str) {
        if self.has_name(name) {
            self.close();
        }
    }

    /// Whether this is the name of the file that was kept last.
    fn has_name(&self, name: &str) -> bool {
        self.name.get(..self.length) == Some(name.as_bytes())
    }
}
