//! Examples of lines, which check the definition of a line.

ghost use Rattle.client.specs.Lines.{FaultLines, ResponseLines};

/// Proves the lines of some results, by computation.
pub fn worked_lines()
    ensures responses { ResponseLines }
    ensures faults { FaultLines }
{}
