//! The style sheet of a page. Nothing is fetched, and nothing runs.

// A constant of its own, since definitions cite it.
pub(crate) const STYLE: &str = "*{box-sizing:border-box}
:root{--label:14.5rem}
body{--week:clamp(4.2rem,(100vw - var(--label) - 4rem)/min(13,var(--weeks)),8rem);font:14px/1.4 system-ui,sans-serif;margin:0;padding:0 1.2rem 3rem;color:#1d2733;background:#fff;font-variant-numeric:tabular-nums}
html{scroll-padding-top:3rem}
h1{font-size:1.5rem;margin:.6rem 0 0}
h2{font-size:1.15rem;margin:0 0 .4rem}
h3{font-size:1rem;margin:.4rem 0 .2rem}
h1,h2,h3,th,td,a,b{white-space:pre-wrap}
h1,h2,h3,a,tbody th{overflow-wrap:anywhere}
h2 a,h3 a{font-size:.85rem;font-weight:400;margin-left:.8rem}
p{margin:.2rem 0}
ul{margin:.2rem 0;padding:0;list-style:none}
a{color:#1f5fa8}
header p,small,i,.note,.more,.rest>summary,.later>summary,.chart p,thead th,caption{color:#566472}
header b{color:#1d2733}
small,i{font-size:.85em;font-style:normal}
section{border-top:1px solid #dde3ea;padding:.9rem 0}
section section{padding:.5rem 0}
summary{cursor:pointer}
nav{position:sticky;top:0;z-index:3;background:#fff;border-bottom:1px solid #dde3ea;margin:0 -1.2rem;padding:.4rem 1.2rem;white-space:nowrap;overflow-x:auto}
nav a{margin-right:1.2rem;white-space:nowrap}
.z{color:#66727f}
.bad,.over b{color:#b32626;font-weight:600}
.bad,.over b,.n{white-space:nowrap}
.sum{display:flex;flex-wrap:wrap;gap:.5rem;margin:.5rem 0}
.sum a{border-left:4px solid #b9c3cd;padding:.2rem .7rem .2rem .5rem;background:#f5f7f9;color:inherit;text-decoration:none}
.sum b{font-size:1.35rem;margin-right:.3rem}
.sum .none b{color:#66727f;font-weight:400}
.kind,.said li{border-left:4px solid #b9c3cd;padding-left:.6rem}
.kind{margin:.5rem 0}
.sum .late,.kind.late,.said .late{border-color:#c53030}
.sum .release,.kind.release,.said .release{border-color:#2f855a}
.sum .in,.kind.in,.said .in{border-color:#b7791f}
.sum .out,.kind.out,.said .out{border-color:#2b6cb0}
.sum .cancel,.kind.cancel,.said .cancel{border-color:#6b7785}
table{border-collapse:collapse}
caption{text-align:left;padding:.2rem 0}
caption span{position:sticky;left:0}
th{font-weight:400;text-align:left}
.said li{padding-top:.08rem;padding-bottom:.08rem}
.item details>.scroll{display:inline-block;vertical-align:top;max-width:calc(100% - 2.5rem);margin-right:2.5rem}
.list{margin:.2rem 0 .6rem}
.list th,.list td{padding:.08rem 1rem .08rem 0;text-align:right;vertical-align:top}
.list .t,.list th[scope=row]{text-align:left}
.list thead th{vertical-align:bottom}
.list td i{display:inline-block;min-width:clamp(3.2em,(var(--weeks) - 52)*9em,4.9em);margin-left:.2em;white-space:nowrap}
#risk .t:nth-child(5){padding-left:.8rem;width:26%}
.list tbody tr:hover{background:#f0f4f8}
.list tbody:empty::after{content:\"None on this page\"}
.even{table-layout:fixed;width:100%;max-width:64rem}
.even th,.even td{overflow-wrap:anywhere;padding-right:clamp(.4rem,1rem - (var(--weeks) - 52)*1rem,1rem)}
.even th:first-child,.even .t{width:clamp(19%,26% - (var(--weeks) - 52)*1%,26%)}
.over b{display:inline-block;min-width:5.5em;text-align:right}
.over details>.scroll{margin:0 0 .4rem 2rem}
.over details>.note{margin-left:2rem}
.waits td:last-child{color:#b32626;font-weight:600}
.waits td.z:last-child{color:#66727f;font-weight:400}
.index{columns:12rem;column-gap:1.5rem}
.scroll .list th,.scroll .list td,.scroll .list a{white-space:pre;overflow-wrap:normal}
#glance section{border:0;padding:.2rem 0;break-inside:avoid}
#glance .chart{margin-bottom:.6rem}
#glance .chart p{display:none}
#glance svg{grid-column:1/3;height:2.2rem}
@media screen and (min-width:68rem){main{display:grid;grid-template-columns:minmax(0,1fr) min(31rem,36vw);grid-template-rows:auto auto 1fr;column-gap:2.5rem}main>*{grid-column:1/3}#unkept,#risk,#todo{grid-column:1}#glance{grid-column:2;grid-row:1/4}}
@media (max-width:68rem){:root{--label:11rem}.item details>.scroll{display:block;max-width:none;margin-right:0}#glance{columns:22rem 2;column-gap:2rem}#glance h2{column-span:all}}
tr:target,section:target>h2,section:target>h3{background:#fff3c4}
.scroll{overflow-x:auto}
.chart{display:grid;grid-template-columns:calc(var(--label) - .4rem) minmax(0,calc(var(--weeks)*var(--week)));column-gap:.4rem;margin:.4rem 0 .1rem}
.chart p{display:flex;flex-direction:column;justify-content:space-between;align-items:flex-end;text-align:right;margin:0;font-size:.85em;line-height:1.1}
svg{display:block;overflow:visible;width:100%;height:4.6rem;background:repeating-linear-gradient(90deg,#b9c3cd 0 1px,#f8fafb 1px calc(1300%/var(--weeks)))}
.chart .axis{grid-row:2;grid-column:2;flex-direction:row;height:clamp(0rem,(var(--weeks) - 13)*9rem,1.4em);overflow:hidden;padding-top:.1rem}
.zero,.full,polyline{fill:none;vector-effect:non-scaling-stroke}
.zero,.full{stroke:#1d2733;stroke-width:1.5}
polyline{stroke:#2b6cb0;stroke-width:2}
.load{fill:#7fb0e3}
.hot{fill:#eba9a4}
.above{fill:#c53030}
.cut{fill:#1d2733}
.grid{margin:.2rem 0}
.grid th:first-child{position:sticky;left:0;z-index:1;background:#fff;min-width:var(--label);max-width:var(--label);padding-right:.4rem;white-space:normal}
.grid td,.grid thead th+th{min-width:var(--week);padding:.06rem max(.4rem,(var(--week) - 4.4rem)/2) .06rem 0;text-align:right;vertical-align:top}
.grid thead th{border-bottom:1px solid #dde3ea}
.grid .strong th,.grid .strong td:not(.z){font-weight:600}
.grid .over td{color:#b32626;font-weight:600}
.more{margin:.3rem 0}
main:has(>.more) .item details .scroll::after{content:\"Orders and pegs that are not on this page are counted behind the items.\";color:#566472}
@media (max-width:40rem){:root{--label:7rem}body{--week:4.2rem;padding:0 .6rem 2rem;font-size:13px}nav{margin:0 -.6rem;padding:.4rem .6rem}nav a{margin-right:.7rem}main{display:flex;flex-direction:column}#unkept,#risk,#todo{order:-1}.axis span:nth-child(2){display:none}.sum a{padding:.1rem .5rem;flex:1 1 9rem}.even{font-size:.78rem}.even th,.even td{padding-right:.25rem}.even thead th{font-size:.68rem}.even td i{display:block;min-width:0;margin-left:-1.5rem}.even th:first-child,.even .t,#risk .t:nth-child(5){width:22%}.over b{min-width:0}.over details>.scroll,.over details>.note{margin-left:0}}
@media print{@page{size:landscape;margin:1cm 1cm 1.3cm;@bottom-right{content:counter(page) \" / \" counter(pages);font:8pt system-ui,sans-serif;color:#566472}}body{--label:11rem;--week:4.1rem;padding:0;font-size:10px}nav,h2 a,h3 a{display:none}a{color:inherit;text-decoration:none}.scroll{overflow:visible}h2,h3,caption,summary,thead,.note,.chart,.said{break-after:avoid}.scroll+details{break-before:avoid}tr,li,.grid,.chart,.said{break-inside:avoid}section{padding:.5rem 0}svg{height:3rem}summary{list-style:none}.sum{gap:.3rem}.sum a{padding:.1rem .35rem}#todo .rest>summary,#unkept .rest>summary,#risk .rest>summary{display:none}#todo details::details-content,#unkept details::details-content,#risk details::details-content{content-visibility:visible;block-size:auto}.load,.hot,.above,.cut,.todo td,.sum a,.kind{print-color-adjust:exact}}
";
