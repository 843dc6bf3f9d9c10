ghost use Rattle.cert_check_law.specs.Sheets.{ViewsHaveTheSheetsRoom};

/// A view's usable servers have the capacities of the sheet that stands for it, so what is best at those is best for it.
pub fn views_have_the_sheets_room()
    ensures { ViewsHaveTheSheetsRoom }
{}
