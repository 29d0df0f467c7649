//! How large things are drawn.

/// Lengths in pixels; the more boxes there are, the smaller they are.
#[derive(Clone, Copy, Debug, PartialEq, Eq)]
pub(crate) struct Sizes {
    /// The least width of a box.
    pub(crate) width: u64,
    /// Between two boxes of a row, where wires turn.
    pub(crate) gap: u64,
    /// The least height of a box.
    pub(crate) height: u64,
    /// Between the wires of two channels.
    pub(crate) port: u64,
    /// Between two rows.
    pub(crate) space: u64,
    pub(crate) font: u64,
    pub(crate) small: u64,
    /// How wide the whole latency is, if there is room for all boxes.
    pub(crate) span: u64,
}

/// The sizes for so many boxes.
pub(crate) fn sizes_for(boxes: usize) -> Sizes {
    if boxes <= 12 {
        return Sizes {
            width: 110,
            gap: 36,
            height: 22,
            port: 12,
            space: 10,
            font: 11,
            small: 9,
            span: 420,
        };
    }
    if boxes <= 60 {
        return Sizes {
            width: 92,
            gap: 28,
            height: 18,
            port: 9,
            space: 6,
            font: 9,
            small: 7,
            span: 900,
        };
    }
    Sizes {
        width: 64,
        gap: 22,
        height: 11,
        port: 5,
        space: 3,
        font: 6,
        small: 5,
        span: 1600,
    }
}

impl Sizes {
    /// How high the box of so many channels is.
    pub(crate) fn box_height(&self, channels: u32) -> u64 {
        let ports = u64::from(channels).saturating_add(1);
        self.port.saturating_mul(ports).max(self.height)
    }
}
