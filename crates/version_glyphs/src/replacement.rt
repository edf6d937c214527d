use span_flatten::window::Window;

/// What stands in place of the characters of a version from `from` up to `to`.
pub struct Replacement {
    pub from: usize,
    pub to: usize,
    pub window: Window,
}

impl Drop for Replacement {
    fn drop(self) {
        let Replacement {
            from: _,
            to: _,
            window: _,
        } = self;
    }
}
