//! Objects of file scope. Types are those of `csub_objects`.
use csub_objects::CType;
use csub_text::Text;

/// An object of file scope.
pub struct GlobalVar {
    /// The declared name.
    pub name: Text,
    /// The declared type.
    pub ctype: CType,
    /// What its cells hold when a run begins, a number for each (C11 6.7.9p10 for those that nothing is given for).
    pub initial: Vec<i64>,
}

impl Drop for GlobalVar {
    fn drop(self) {
        let GlobalVar {
            name: _,
            ctype: _,
            initial: _,
        } = self;
    }
}
