//! What a window decides of a node, as the contract of a function that does nothing.

ghost use Rattle.lps_windows.specs.Conditions.{NoneComeTrue, WindowsDecide, WindowsDecideBegins};

/// Where the conditions of what is left have no solution, it never comes true. Where the times at which its next step can begin
/// have a window, it can come true exactly where the window is open: from now on for a group or a macro call, and from the
/// next cycle on for an `at` item; and a group or a macro call may begin now exactly where now lies in the window.
pub fn window_law()
    ensures decide { WindowsDecide }
    ensures none { NoneComeTrue }
    ensures begins { WindowsDecideBegins }
{}
