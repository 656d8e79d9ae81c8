//! The markup of pages.

ghost use Rattle.std.specs.Prelude.{◌≡◌};
ghost use Rattle.page_pieces.specs.Markup.{composed_markup, head_text, markup_of, markup_text};

/// What stands on a page between texts.
#[derive(Clone, Copy)]
pub enum Markup {
    /// What stands before the title, with the style of the page.
    Head,
    /// From the title to the heading of the page.
    Title,
    /// From the heading to the number of alarms.
    Count,
    /// From the number of alarms to the tables.
    Navigation,
    /// From the tables to the list of alarms.
    Alarms,
    /// From there, or from the alarm before, to the line of the text of an alarm.
    Alarm,
    /// From the place of an alarm to its class.
    Rule,
    /// From the class of an alarm to what it says.
    Sentence,
    /// Behind an alarm.
    AlarmEnd,
    /// From the list of alarms to the name of the first file.
    Sources,
    /// Before the number of a line of the text whose line of the file is shown.
    Line,
    /// The same, of a line that has a note.
    Noted,
    /// The same, of a line with a place whose meaning C leaves open.
    Opened,
    /// The same, of a line with a place that no run reaches.
    Unreached,
    /// From there to the number of the line of the file.
    Number,
    /// From there to the line of the file.
    Code,
    /// Behind a line of the file.
    LineEnd,
    /// Before the number of a line of the text that is not shown.
    Hidden,
    /// Behind it.
    HiddenEnd,
    /// Behind the last line of the text.
    End,
    /// Before a note on a place whose meaning C leaves open.
    Open,
    /// Before a heading.
    Heading,
    /// Behind a heading.
    HeadingEnd,
    /// Before a note that says that a line has a place that no run reaches.
    Dead,
    /// Before the summary of a group.
    Group,
    /// Behind the summary of a group.
    SummaryEnd,
    /// Behind a group.
    GroupEnd,
    /// Before the first column of the head of a table.
    Table,
    /// Between two columns of a head.
    Column,
    /// Behind the head of a table.
    HeadEnd,
    /// Before the first cell of a row.
    Row,
    /// Between two cells of a row.
    Cell,
    /// Behind a row.
    RowEnd,
    /// Behind a table.
    TableEnd,
    /// Before the number of the line of the text to which a link leads.
    Link,
    /// From there to what is linked.
    Linked,
    /// Behind what is linked.
    LinkEnd,
    /// Before a note.
    Note,
    /// Behind a note.
    NoteEnd,
}

/// The markup for which the bytes from 13 to 31 stand in texts that are composed.
static COMPOSED: [Markup; 19] = [
    Markup::Open,
    Markup::Heading,
    Markup::HeadingEnd,
    Markup::Dead,
    Markup::Group,
    Markup::SummaryEnd,
    Markup::GroupEnd,
    Markup::Table,
    Markup::Column,
    Markup::HeadEnd,
    Markup::Row,
    Markup::Cell,
    Markup::RowEnd,
    Markup::TableEnd,
    Markup::Link,
    Markup::Linked,
    Markup::LinkEnd,
    Markup::Note,
    Markup::NoteEnd,
];

/// The markup for which the bytes from 13 to 31 stand.
#[tactic(auto, unfolding(crate::specs::Markup::composed_markup))]
fn composed() -> &'static [Markup]
    ensures { result.now ≡ composed_markup }
{
    &COMPOSED
}

/// The markup for which a byte stands, if it stands for one.
pub fn markup_of(byte: u8) -> Option<Markup>
    ensures { result ≡ markup_of byte }
{
    if byte < 13 {
        return None;
    }
    composed().get(byte as usize - 13).copied()
}

/// What stands before the title.
#[tactic(auto, unfolding(crate::specs::Markup::head_text))]
fn head() -> &'static str
    ensures { result.now ≡ head_text }
{
    "<!doctype html><html lang='en'><head><meta charset='utf-8'>\
            <meta name='viewport' content='width=device-width,initial-scale=1'><style>\
            :root{color-scheme:light dark;--ground:#fff;--ink:#1b2026;--quiet:#56606a;--rule:#d5dae0;\
            --soft:#f3f5f8;--link:#0a58a8;\
            --alarm:#a8201a;--dead:#676f78;--open:#6a3d9e;--mark:#fdf1cc}\
            @media (prefers-color-scheme:dark){:root{--ground:#15191d;--ink:#e4e8eb;--quiet:#9ba6b0;\
            --rule:#343c44;--soft:#1e242a;\
            --link:#74b6ff;--alarm:#ff9189;--dead:#8b96a1;--open:#c8a8f2;--mark:#3b3315}}\
            *{box-sizing:border-box}body{margin:0;background:var(--ground);color:var(--ink);\
            font:15px/1.5 system-ui,sans-serif}\
            header,main{max-width:76rem;margin:0 auto;padding:0 1.2rem}main{padding-bottom:3rem}\
            h1{font-size:1.5rem;margin:1rem 0 0;overflow-wrap:anywhere}h2{font-size:1.15rem;\
            margin:1.8rem 0 .5rem}\
            header p{margin:.1rem 0 .5rem;color:var(--quiet)}nav a{margin-right:1rem}a{color:var(--link)}\
            :focus-visible{outline:2px solid var(--link);outline-offset:2px}\
            table{border-collapse:collapse;width:100%;font-size:14px;margin:.3rem 0 .8rem}\
            th,td{text-align:left;vertical-align:top;padding:.25rem .6rem;\
            border-bottom:1px solid var(--rule);overflow-wrap:anywhere}\
            th{color:var(--quiet)}b{color:var(--alarm);font:600 12px/1.5 ui-monospace,monospace}\
            summary{cursor:pointer;padding:.3rem .6rem;background:var(--soft);\
            border:1px solid var(--rule);overflow-wrap:anywhere}\
            section{content-visibility:auto;contain-intrinsic-height:auto 60rem;overflow-clip-margin:6px}\
            details{margin:.5rem 0}.scroll{overflow-x:auto}.line{display:flex;min-width:max-content}\
            .noted,.line:target,:target+.line{background:var(--mark)}\
            .number{flex:none;width:4.5em;padding-right:1em;text-align:right;color:var(--quiet);\
            user-select:none}\
            .line code,.number{font:13px/1.5 ui-monospace,Menlo,Consolas,monospace;white-space:pre;\
            tab-size:4}\
            .unreached code{color:var(--dead)}.unreached .number{border-right:3px double var(--dead)}\
            .opened .number{border-right:3px dotted var(--open)}.open{color:var(--open)}\
            .note,.dead,.open{margin:.1rem 0;font-size:13.5px}.note,.dead{color:var(--quiet)}\
            .scroll .note,.scroll .dead,.scroll .open{padding:.05rem .6rem .05rem 5.2em;\
            background:var(--soft)}\
            .scroll .note+.note{border:0}.dead{font-style:italic}\
            @media print{nav{display:none}section{content-visibility:visible}a{color:inherit}\
            .line{min-width:0}.line code{\
            white-space:pre-wrap}summary{list-style:none}}\
            @media (max-width:40rem){.number{width:3em}\
            .scroll .note,.scroll .dead,.scroll .open{padding-left:1rem}}\
            </style><title>"
}

/// What stands on the page for markup.
#[tactic(auto, unfolding(crate::specs::Markup::markup_text))]
pub fn markup_text(markup: Markup) -> &'static str
    ensures { result.now ≡ markup_text markup }
{
    match markup {
        Markup::Head => head(),
        Markup::Title => "</title></head><body><header><h1>",
        Markup::Count => "</h1><p>alarms: ",
        Markup::Navigation =>
            "</p><nav aria-label='Parts of this page'><a href='#tables'>Summary</a><a href='#alarms'>\
            Alarms</a>\
            <a href='#sources'>Sources</a></nav></header><main><section id='tables' aria-label='Summary'>\n",
        Markup::Alarms =>
            "</section><section id='alarms' aria-label='Alarms'><h2>All alarms</h2><table><thead><tr>\
            <th scope='col'>Place</th>\
            <th scope='col'>Class</th><th scope='col'>What may happen</th></tr></thead><tbody>\n",
        Markup::Alarm => "<tr><td><a href='#L",
        Markup::Rule => "</a></td><td><b>",
        Markup::Sentence => "</b></td><td>",
        Markup::AlarmEnd => "</td></tr>\n",
        Markup::Sources =>
            "</tbody></table></section><section id='sources' aria-label='Sources'><h2>Sources</h2>\
            <div class='scroll'>\
            <details open><summary>",
        Markup::Line => "<div class='line' id='L",
        Markup::Noted => "<div class='line noted' id='L",
        Markup::Opened => "<div class='line opened' id='L",
        Markup::Unreached => "<div class='line unreached' id='L",
        Markup::Number => "'><span class='number'>",
        Markup::Code => "</span><code>",
        Markup::LineEnd => "</code></div>\n",
        Markup::Hidden => "<span id='L",
        Markup::HiddenEnd => "'></span>",
        Markup::End => "</details></div></section></main></body></html>\n",
        Markup::Open => "<p class='open'>",
        Markup::Heading => "<h2>",
        Markup::HeadingEnd => "</h2>\n",
        Markup::Dead => "<p class='dead'>",
        Markup::Group => "<details open><summary>",
        Markup::SummaryEnd => "</summary>\n",
        Markup::GroupEnd => "</details>\n",
        Markup::Table => "<table><thead><tr><th scope='col'>",
        Markup::Column => "</th><th scope='col'>",
        Markup::HeadEnd => "</th></tr></thead><tbody>\n",
        Markup::Row => "<tr><td>",
        Markup::Cell => "</td><td>",
        Markup::RowEnd => "</td></tr>\n",
        Markup::TableEnd => "</tbody></table>\n",
        Markup::Link => "<a href='#L",
        Markup::Linked => "'>",
        Markup::LinkEnd => "</a>",
        Markup::Note => "<p class='note'>",
        Markup::NoteEnd => "</p>\n",
    }
}
