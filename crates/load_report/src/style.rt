//! The colours of the picture's classes.

use drawing::Style;

/// The colours of the picture's classes.
pub(crate) const STYLE: Style = Style {
    all: ".interval,.bucket,.key-interval,.key-bucket{fill:#1f6feb}\
        .failed,.key-failed{fill:#cf222e}.axis{stroke:#59636e}.grid{stroke:#d1d9e0}\
        .latency,.key-latency{stroke-width:2;stroke-linecap:round}.p50{stroke:#1a7f37}\
        .p99{stroke:#bf5b04}.greatest{stroke:#8250df;stroke-width:6}\
        .percentile{stroke:#bf5b04;stroke-dasharray:6 3}\
        .over{stroke:#fff;stroke-width:5px;paint-order:stroke}.heading{font-weight:bold}",
    dark: ".interval,.bucket,.key-interval,.key-bucket{fill:#4493f8}\
        .failed,.key-failed{fill:#ff7b72}.axis{stroke:#9198a1}.grid{stroke:#30363d}\
        .p50{stroke:#3fb950}.p99{stroke:#d9822b}.greatest{stroke:#ab7df8}\
        .percentile{stroke:#d9822b}.over{stroke:#0d1117}",
};
