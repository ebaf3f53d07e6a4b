//! How the questions of a text are answered.

/// In which form a question is answered.
#[derive(Clone, Copy, Debug, PartialEq, Eq)]
pub enum StudiesForm {
    /// In one line.
    Answers,
    /// The same, with lines in words below it.
    Explained,
    /// As an object of JSON.
    Objects,
}

/// How the questions of a text are answered.
#[derive(Clone, Copy, Debug, PartialEq, Eq)]
pub struct StudiesManner {
    pub form: StudiesForm,
    /// Whether each answer tells the number of its line.
    pub is_numbered: bool,
}
