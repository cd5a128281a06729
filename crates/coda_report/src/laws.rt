// What holds of all reports.
ghost use Rattle.coda_report.specs.PathOrder.{VolumesAreShownInPathOrder};

/// A law of the text of a volume: what is shown begins with the root; each path leads to the object that is shown with it;
/// the paths strictly rise, by the bytes of their names, and a directory stands before what it binds; and each object of the
/// volume is shown once.
pub fn volumes_are_shown_in_path_order()
    ensures { VolumesAreShownInPathOrder }
{}
