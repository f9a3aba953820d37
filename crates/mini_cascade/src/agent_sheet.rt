//! The user agent's style sheet.

ghost use Rattle.std.specs.Prelude.{◌≡◌};
ghost use Rattle.mini_cascade.specs.AgentSheet.{agent_sheet};

/// The style sheet of the user agent: what of HTML, 15.3 "Non-replaced elements" and of CSS Lists 3,
/// Appendix A, counters, markers and quotation marks need. It has nine rules.
pub const AGENT_SHEET: &str = "\
[hidden],area,base,datalist,head,link,meta,noembed,noframes,param,rp,script,style,template,title{display:none}
li{display:list-item}
ol,ul,menu,dir{counter-reset:list-item}
ol{list-style-type:decimal}
ul,menu,dir{list-style-type:disc}
:is(ol,ul,menu,dir) :is(ul,menu,dir){list-style-type:circle}
:is(ol,ul,menu,dir) :is(ol,ul,menu,dir) :is(ul,menu,dir){list-style-type:square}
q::before{content:open-quote}
q::after{content:close-quote}
";

/// The sheet is the one that the definitions spell. The function here has nothing to do: its contract is the
/// law.
pub fn one_agent_sheet()
    ensures law { AGENT_SHEET.now ≡ agent_sheet }
{}
