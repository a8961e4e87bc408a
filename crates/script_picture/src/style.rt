//! The colours of the picture's classes.

use drawing::Style;

/// The colours of the picture's classes.
pub(crate) const STYLE: Style = Style {
    all: ".leased,.key-leased{fill:#1f6feb}.idle,.key-idle{fill:#b6d4fe}\
        .wait,.key-wait{fill:#bf5b04}.holder{fill:#fff;font-size:11px}.number{font-weight:bold}\
        .limit,.key-limit{stroke:#cf222e;stroke-width:1.5;stroke-dasharray:6 3}\
        .moment{stroke:#d1d9e0}.mark{fill:#fff;stroke:#1f2328}.letter{font-size:10px}\
        .edge{stroke:#59636e}.name{font-weight:bold}",
    dark: ".leased,.key-leased{fill:#4493f8}.idle,.key-idle{fill:#1f3d66}\
        .wait,.key-wait{fill:#d9822b}.holder{fill:#0d1117}\
        .limit,.key-limit{stroke:#ff7b72}.moment{stroke:#30363d}\
        .mark{fill:#0d1117;stroke:#e6edf3}.edge{stroke:#9198a1}",
};
