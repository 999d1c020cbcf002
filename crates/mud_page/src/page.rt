//! The page, as page/make_page.py writes it.

/// The whole answer to a browser that asks for the page: its head, and the page after it.
pub const PAGE: &[u8] = b"\
HTTP/1.1 200 OK\r\nConnection: close\r\nContent-Type: text/html; charset=utf-8\r\nContent-Length: 99773\r\nCon\
tent-Security-Policy: default-src 'none'; connect-src 'self'; style-src 'sha256-cBQcWk4M6QKfMrmBWkqSaWHG5ioSJZ\
+D+DCnu1V/t88='; script-src 'sha256-D36387DRY1Vm/Bh0rVZk2kN+eEoxG0VbUZPljMOICdc='; base-uri 'none'; form-actio\
n 'none'; frame-ancestors 'none'; require-trusted-types-for 'script'\r\nCross-Origin-Opener-Policy: same-origi\
n\r\nCross-Origin-Resource-Policy: same-origin\r\nReferrer-Policy: no-referrer\r\nX-Content-Type-Options: nosn\
iff\r\nX-Frame-Options: DENY\r\nCache-Control: no-cache\r\n\r\n<!doctype html><html lang=en><head><meta charse\
t=utf-8><meta name=viewport content=\"width=device-width, initial-scale=1, interactive-widget=resizes-content\
\"><title>Seamountcup</title><style>:root{color-scheme:light dark;--back:#eef1f0;--sheet:#fffefb;--fore:#17232\
c;--dim:#52606b;--edge:#7d8a93;--mark:#8a4600;--note:#0b5f67;--off:#a3231c;--good:#1c6a35;--room:#e6eef0;--gut\
:4.8rem;--line:1px solid var(--edge);--world:Charter,\"Sitka Text\",Cambria,\"Noto Serif\",Georgia,serif;--pla\
in:Inter,system-ui,sans-serif;--code:ui-monospace,\"DejaVu Sans Mono\",Menlo,Consolas,monospace}@media (prefer\
s-color-scheme: dark){:root{--back:#0a141b;--sheet:#101d26;--fore:#e3ebef;--dim:#9cb0bc;--edge:#5f7786;--mark:\
#f3bd57;--note:#74cfc6;--off:#ff9b8f;--good:#86d99b;--room:#1b2e3a}}@media (forced-colors: active){:root{--bac\
k:Canvas;--sheet:Canvas;--room:Canvas;--fore:CanvasText;--dim:CanvasText;--edge:CanvasText;--mark:Highlight;--\
off:LinkText}}*{box-sizing:border-box}[hidden]{display:none !important}body{margin:0;height:100vh;height:var(-\
-tall,100dvh);display:grid;grid-template-rows:auto minmax(0,1fr);gap:.75rem;padding:.75rem 1rem 1rem;backgroun\
d:var(--back);color:var(--fore);font:16px/1.5 var(--plain)}button,summary,.button,input{font:inherit;color:inh\
erit;border-radius:.5rem;cursor:pointer}button,.button,#menu>summary{background:var(--sheet);border:var(--line\
);padding:.4rem .8rem;min-height:2.5rem}:is(button,.button,summary):hover{border-color:var(--mark)}:focus-visi\
ble,.button:focus-within{outline:3px solid var(--mark);outline-offset:2px}.unseen{position:absolute;width:1px;\
height:1px;overflow:hidden;clip-path:inset(50%);white-space:nowrap}code{font:.92em var(--code)}#connect,#fresh\
,#step,#all{background:var(--mark);border-color:var(--mark);color:var(--sheet);font-weight:600}#log,#map,#menu\
>div,#guest,#route,dialog{background:var(--sheet);border:var(--line);border-radius:.75rem}#where,#floor,#note,\
#more,#age,.exit small,::placeholder{color:var(--dim);opacity:1}header{display:flex;gap:.6rem;align-items:cent\
er;min-width:0}#sign{width:2rem;height:2rem;flex:none;fill:none;stroke:var(--note);stroke-width:2}#sign .rock{\
stroke:var(--fore);fill:var(--room);stroke-linejoin:round}h1{font:600 1.3rem/1 var(--world);margin:0}#where{fl\
ex:1;margin:0 0 0 .6rem;min-width:0;white-space:nowrap;overflow:hidden;text-overflow:ellipsis}#where::before{c\
ontent:\"\\25CB\";margin-right:.45em;color:var(--off)}[data-state=\"on\"] #where::before{content:\"\\25CF\";co\
lor:var(--good)}#menu{position:relative}#menu>summary{list-style:none;display:flex;align-items:center}#menu>di\
v{position:absolute;right:0;top:3rem;z-index:3;display:grid;gap:.35rem;padding:.75rem;width:max-content;box-sh\
adow:0 .6rem 2rem #0004}#menu label{display:flex;gap:.5rem;align-items:center;min-height:2.75rem;cursor:pointe\
r}#menu button{text-align:left}main{display:grid;grid-template:minmax(0,1fr) auto / minmax(0,1fr) minmax(20rem\
,40%);gap:.75rem 1rem;min-height:0}#talk{position:relative;min-height:0}#log{height:100%;overflow-y:auto;paddi\
ng:1rem 1.25rem 1rem .75rem;font:17px/1.5 var(--world)}.timed{--gut:7.9rem}#entries>div{contain:content}#entri\
es>.done{content-visibility:auto;contain-intrinsic-size:auto 2600px}#entries>div>*{position:relative;margin:0;\
padding:.16rem 0 .16rem var(--gut);max-width:80ch;white-space:pre-wrap;overflow-wrap:anywhere}.timed [data-tim\
e]::before{content:attr(data-time);position:absolute;left:.25rem;top:.4rem;font:12px/1.5 var(--code);color:var\
(--dim)}.version{position:absolute;right:calc(100% - var(--gut) + 1.1rem);top:.42rem;font:12px/1.4 var(--code)\
;color:var(--dim);white-space:pre}#entries .mine{font:600 15px/1.5 var(--code);color:var(--mark);margin-top:.5\
rem}.place::first-line{font-weight:700}#entries .notice{color:var(--note);font-style:italic;background:linear-\
gradient(var(--note),var(--note)) calc(var(--gut) - .65rem) 50% / 3px 70% no-repeat}.refused,.refusal{color:va\
r(--off)}.refused::after,.refusal::after{content:\"!\";position:absolute;left:calc(var(--gut) - .7rem);top:.16\
rem;font-weight:700}#entries :is(.page,.greeting,.host){color:var(--dim);font:14px/1.5 var(--plain)}#entries .\
host{color:var(--mark);font-weight:600}#entries pre{font:13px/1.45 var(--code);margin:.4rem 0;max-height:24rem\
;overflow:auto;white-space:pre-wrap}#entries b{font:600 13px/1 var(--plain);color:var(--dim)}.mark{font:600 13\
px/1.4 var(--plain);margin-left:.6em;border-radius:1em;color:var(--dim)}.checked{color:var(--good)}.checked::b\
efore{content:\"\\2713\\A0\"}.alarm{color:var(--off);border:2px solid;padding:.05em .6em}.alarm::before{conten\
t:\"\\26A0\\A0\"}button.mark{min-height:1.6rem;padding:0 .7em}#fresh{position:absolute;bottom:.75rem;left:50%;\
transform:translateX(-50%);border-radius:2rem}aside{min-height:0}#map{height:100%;overflow:hidden;position:rel\
ative}#map:not([open]){height:auto}#map>summary{padding:.6rem 1rem;font-weight:600;white-space:nowrap;overflow\
:hidden;text-overflow:ellipsis;min-height:2.75rem}#chart{display:flex;flex-direction:column;position:absolute;\
inset:2.75rem 0 0}#map-hands{display:flex;gap:.35rem;align-items:center;padding:0 .75rem .5rem}#map-hands butt\
on{padding:0 .5rem;min-width:2.75rem}#floor{flex:1;font-size:.85rem;white-space:nowrap}#picture{flex:1;min-hei\
ght:5rem;position:relative;overflow:hidden;touch-action:none;cursor:grab;border-block:var(--line);background:v\
ar(--back)}#picture:focus-visible{outline-offset:-3px}#canvas{position:absolute;width:100%;height:100%;pointer\
-events:none}#note,#more{margin:0;padding:.35rem 1rem;font-size:.85rem}#words{max-height:45%;overflow:auto;pad\
ding:0 .75rem}#words>summary{padding:.3rem;min-height:2.75rem}#rooms{margin:0;padding:0;list-style:none}#rooms\
\x20button{text-align:left;width:100%;border:0;background:none;overflow-wrap:anywhere}#hands{grid-column:1 / -\
1;display:grid;gap:.5rem;min-width:0}#route{display:flex;gap:.5rem;align-items:center;flex-wrap:wrap;padding:.\
35rem .35rem .35rem 1rem;border-left:5px solid var(--mark)}#told{font-weight:600}#age{flex:1}#exits{display:fl\
ex;gap:.5rem;flex-wrap:wrap;max-height:6.4rem;overflow:auto;padding:3px;margin:-3px}.exit{display:grid;align-c\
ontent:center;text-align:left;min-width:2.75rem;max-width:14rem;line-height:1.2}.exit>*{overflow:hidden;text-o\
verflow:ellipsis;white-space:nowrap}:is(#exits,.exit small):empty{display:none}.exit.locked{border:1px dashed \
var(--off)}.exit.next{border:2px solid var(--mark)}form{display:flex;gap:.5rem;align-items:center}input{backgr\
ound:var(--back);border:var(--line);padding:.5rem .9rem;min-width:0}#line{flex:1;font:16px/1.4 var(--code);bac\
kground:var(--sheet)}#guest{padding:.75rem 1rem;font-weight:600}:is(#hands,#map-hands) button,input{min-height\
:2.75rem}dialog{max-width:min(52rem,94vw);max-height:88vh;overflow:auto;color:inherit;padding:1rem 1.5rem}dial\
og::backdrop{background:#0009}dialog form{justify-content:space-between;position:sticky;top:-1rem;background:v\
ar(--sheet)}h2{font:600 1.25rem/1.3 var(--world)}table{border-collapse:collapse;width:100%}th,td{text-align:le\
ft;vertical-align:top;padding:.35rem .75rem .35rem 0;border-bottom:var(--line)}@media (max-width: 52rem){:root\
{--gut:4.1rem}.timed{--gut:7rem}body{padding:.4rem .5rem .5rem;gap:.4rem}header{gap:.4rem}h1{position:absolute\
;overflow:hidden;clip-path:inset(50%)}header button,#menu>summary{min-height:2.75rem;padding:.3rem .7rem}#wher\
e{margin:0}main{grid-template:auto minmax(0,1fr) auto / minmax(0,1fr);gap:.4rem}aside{grid-row:1}#map[open]{he\
ight:calc(var(--tall,100dvh) * .42)}.keyed #map[open]{height:2.75rem}.keyed #route{display:none}#log{padding:.\
6rem .6rem .6rem .1rem;font-size:16px}.version{right:calc(100% - var(--gut) + .9rem)}#exits{flex-wrap:nowrap;s\
crollbar-width:none}.exit{flex:none;max-width:11rem}#map-hands{padding:0 .4rem .4rem;gap:.25rem}}\n</style></h\
ead><body><header><svg id=sign viewBox=\"0 0 32 32\" aria-hidden=true><path class=sea d=\"M1 13c4-4 7 3 11-1s7\
\x203 10-1 6 2 9-1\"/><path class=rock d=\"M3 29l8-11h3l2-2 4 2h2l7 11z\"/></svg><h1>Seamountcup</h1><p id=whe\
re><span id=state role=status>not connected</span><span id=wait aria-hidden=true></span></p><button id=connect\
\x20type=button hidden>Connect</button><button id=ask type=button>Commands</button><details id=menu><summary>M\
enu</summary><div><button id=save type=button>Save history and proofs</button><button id=save-log type=button>\
Save the log</button><label class=button>Check a saved file<input id=file class=unseen type=file></label><labe\
l><input id=looks type=checkbox checked> Look after each step</label><label><input id=checks type=checkbox che\
cked> Check each route and meeting</label><label><input id=times type=checkbox> Times beside the lines</label>\
</div></details></header><main><section id=talk aria-label=\"The log\"><div id=log role=log aria-live=off aria\
-label=\"What the world says\" tabindex=0><div id=entries></div></div><button id=fresh type=button hidden></bu\
tton></section><aside aria-label=\"Map\"><details id=map><summary id=map-name>Map</summary><div id=chart><div \
id=map-hands role=group aria-label=\"Part of the map\"><button id=up type=button aria-label=\"The floor above\
\">&#9650;</button><span id=floor></span><button id=down type=button aria-label=\"The floor below\">&#9660;</b\
utton><button id=smaller type=button aria-label=\"Smaller\">&minus;</button><button id=larger type=button aria\
-label=\"Larger\">+</button><button id=whole type=button>All</button><button id=home type=button>Here</button>\
</div><div id=picture role=group tabindex=0 aria-label=\"Picture of the map; the list has the same\"><canvas i\
d=canvas aria-hidden=true></canvas></div><p id=note></p><details id=words><summary>The map as a list</summary>\
<ul id=rooms></ul><p id=more></p></details></div></details></aside><section id=hands aria-label=\"What you can\
\x20do\"><div id=route role=group aria-label=\"The way you asked for\" hidden><span id=told></span> <span id=m\
ark></span> <span id=age></span><button id=again type=button>Ask again</button><button id=step type=button></b\
utton><button id=all type=button></button><button id=close type=button aria-label=\"Close the way\">&times;</b\
utton></div><div id=exits role=group aria-label=\"Exits of this room\"></div><form id=guest aria-label=\"Come \
in\" hidden><label for=name>Your name</label><input id=name autocomplete=off autocapitalize=words spellcheck=f\
alse><button>Come in</button></form><form id=form aria-label=\"Your line\"><label class=unseen for=line>Your l\
ine</label><input id=line maxlength=1000 autocomplete=off autocapitalize=off spellcheck=false enterkeyhint=sen\
d\nautofocus><button>Send</button></form></section></main><div id=spoken class=unseen aria-live=polite></div><\
dialog id=help aria-labelledby=help-name><form method=dialog><h2 id=help-name>What can be typed</h2><button>Cl\
ose</button></form><p>Tab completes, the arrow keys go through lines that begin as yours, Escape clears. A cli\
ck on a room asks the way.\nX and Y stand for a thing, a player, an exit, <code>here</code>, <code>me</code> o\
r a number as <code>#7</code>, R\nfor a room, P for a player, K for a key, N for names; he is who types.</p><t\
able><thead><tr><th scope=col>You type</th><th scope=col>What comes</th></tr></thead><tbody id=commands></tbod\
y></table></dialog><script>\"use strict\";\nlet $;\nconst checker = (() => {\n\nlet MOST_NUMBER=8191,MOST_NAME\
S=4,LONGEST_NAME=60,MOST_ATOMS=16,MOST_NOTS=64,CR=13,SPACE=32,QUOTE=34,SHARP=35,COMMA=44,ZERO=48,IN_NAME=new U\
int8Array(127).fill(1,SPACE);\nfor(let sign of'\"\\\\,|&!?()')IN_NAME[sign.charCodeAt(0)]=0;\nclass Cursor{con\
structor(text,at=0,end=text.length){this.text=text;this.at=at;this.end=end;this.told=[]}get isAtEnd(){return t\
his.at===this.end}take(word){if(!this.text.startsWith(word,this.at)||this.at+word.length>this.end)return!1;thi\
s.at+=word.length;return!0}number(most){let{text,at}=this,to=at,number=0;for(;to<this.end;to+=1){let digit=tex\
t.charCodeAt(to)-ZERO;if(!(digit>=0&&digit<=9))break;number=10*number+digit}if(to===at||number>most||(to>at+1&\
&text.charCodeAt(at)===ZERO))return $;this.at=to;return number}sharp(){if(this.text.charCodeAt(this.at)!==SHAR\
P||this.isAtEnd)return $;this.at+=1;return this.number(MOST_NUMBER)}endOfName(at){let to=at,last=SPACE;for(;to\
<this.end;to+=1){let byte=this.text.charCodeAt(to);if(byte===COMMA||byte===QUOTE)break;if(!IN_NAME[byte]||(byt\
e===SPACE&&last===SPACE))return $;last=byte}let isName=last!==SPACE&&to-at<=LONGEST_NAME&&this.text.charCodeAt\
(at)!==SHARP;return isName&&to<this.end?to:$}names(most=MOST_NAMES){if(this.text.charCodeAt(this.at)!==QUOTE)r\
eturn $;let begin=this.at+1;for(let count=1,at=begin;count<=most;count+=1){let to=this.endOfName(at);if(to===$\
)return $;at=to+1;if(this.text.charCodeAt(to)===COMMA)continue;this.at=at;let names=this.text.slice(begin,to);\
this.told.push(names);return names}return $}}\nclass KeyReader{constructor(cursor){this.cursor=cursor;this.obj\
ects=[];this.asked=[];this.nots=0;this.joins=0}read(){let tree=this.chain();return tree&&this.cursor.isAtEnd?{\
tree,objects:this.objects,asked:this.asked}:$}chain(){let left=this.unary();while(left){let sign=this.cursor.t\
ake(\" && \")?\"&&\":this.cursor.take(\" || \")?\"||\":$;if(!sign)break;let right=this.operand();left=right&&{\
sign,left,right}}return left}operand(){if(!this.cursor.take(\"(\"))return this.unary();this.joins+=1;let inner\
=this.joins<MOST_ATOMS?this.chain():$;return inner?.left&&this.cursor.take(\")\")?inner:$}unary(){if(!this.cur\
sor.take(\"!\"))return this.object();this.nots+=1;let of=this.nots<=MOST_NOTS?this.operand():$;return of&&{sig\
n:\"!\",of}}object(){let sign=this.cursor.take(\"?\")?\"?\":\"#\",object=this.cursor.sharp();if(object===$||th\
is.objects.length===MOST_ATOMS)return $;this.objects.push(object);if(sign===\"?\")this.asked.push(object);retu\
rn{sign,object}}}\n\nlet AT_ONCE=64,MOST_ENTRIES=65536,MOST_DESK=64,MOST_COST=10000,MOST_SAID=900;\nclass Chan\
ge{constructor(kind,actor){this.kind=kind;this.actor=actor;this.object=$;this.to=$;this.names=$;this.key=$;thi\
s.cost=0;this.hasOut=this.hasBack=!1}}\nlet KINDS={dig(cursor,change){let isNew=cursor.take(\"new \");change.t\
o=isNew?$:cursor.take(\"old \")?cursor.sharp():$;if(isNew?cursor.names()===$:change.to===$)return!1;change.has\
Out=cursor.take(\" out \");if(!change.hasOut)return isNew;if(cursor.names()===$)return!1;change.hasBack=cursor\
.take(\" back \");return!change.hasBack||cursor.names()!==$},make:cursor=>cursor.names()!==$,player(cursor,cha\
nge){change.names=cursor.names(1);return change.names!==$},lock(cursor,change){if(!takeObject(cursor,change)||\
!cursor.take(\" \"))return!1;change.key=new KeyReader(cursor).read();return change.key!==$},unlock:takeObject,\
move(cursor,change){if(!takeObject(cursor,change)||!cursor.take(\" \"))return!1;change.to=cursor.sharp();retur\
n change.to!==$},walk:takeObject,cost(cursor,change,format){if(!takeObject(cursor,change)||!cursor.take(\" \")\
)return!1;change.cost=cursor.number(MOST_COST);return change.cost>0||(change.cost===0&&format===2)},rename(cur\
sor,change){if(!takeObject(cursor,change)||!cursor.take(\" \"))return!1;change.names=cursor.names();return cha\
nge.names!==$},recycle:takeObject,say:takeSaid,emote:takeSaid,};\nfunction takeObject(cursor,change){change.ob\
ject=cursor.sharp();return change.object!==$}\nfunction takeSaid(cursor){let{text,at,end}=cursor;for(let to=at\
;to<end;to+=1){let byte=text.charCodeAt(to);if(!(byte>=SPACE&&byte<127))return!1}cursor.at=end;return end>at&&\
end-at<=MOST_SAID&&text.charCodeAt(at)!==SPACE&&text.charCodeAt(end-1)!==SPACE}\nfunction entryOf(cursor,versi\
on,format){if(cursor.number(version)!==version||!cursor.take(\" \"))return $;if(!cursor.number(MOST_DESK)||!cu\
rsor.take(\" \"))return $;let space=cursor.text.indexOf(\" \",cursor.at),kind=cursor.text.slice(cursor.at,Math\
.max(space,0));if(!Object.hasOwn(KINDS,kind))return $;cursor.at=space+1;let change=new Change(kind,cursor.shar\
p());if(change.actor===$||!cursor.take(\" \"))return $;return KINDS[kind](cursor,change,format)&&cursor.isAtEn\
d?change:$}\nclass Lines{constructor(text,at=0,count=0){this.text=text;this.at=at;this.count=count;this.line=n\
ew Cursor(text)}get isAtEnd(){return this.at===this.text.length}take(){let{text,at,line}=this,feed=text.indexO\
f(\"\\n\",at);if(feed<0)return $;this.at=feed+1;this.count+=1;line.at=at;line.told=[];line.end=feed>at&&text.c\
harCodeAt(feed-1)===CR?feed-1:feed;return line}back(at){if(this.at!==at)this.count-=1;this.at=at}next(){let li\
ne=this.take();return line&&this.text.slice(line.at,line.end)}}\nclass History{constructor(hear){this.hear=hea\
r;this.front=\"\";this.format=0;this.changes=[]}*read(text){if(this.front===\"\"||!text.startsWith(this.front)\
)Object.assign(this,new History(this.hear));let lines=new Lines(text,this.front.length,this.format?this.change\
s.length+1:0);if(!this.format){let first=lines.next()?.match(/^mud history ([12])$/);if(!first)return\"not a h\
istory\";this.format=Number(first[1])}while(this.readEntries(lines))yield lines.at/text.length/2;this.front=te\
xt.slice(0,lines.at);return this.readEnd(lines)}readEntries(lines){for(let count=0;count<AT_ONCE;count+=1){let\
{at}=lines,version=this.changes.length+1,line=lines.take(),change=line&&entryOf(line,version,this.format);if(!\
change||version>MOST_ENTRIES){lines.back(at);return!1}this.changes.push(change);this.hear?.(change,line.told)}\
return!0}readEnd(lines){let count=this.changes.length,line=lines.take();if(!line)return\"history without end\"\
;if(line.take(\"end \")){let isLast=line.number(count)===count&&line.isAtEnd;return isLast&&lines.isAtEnd?$:`h\
istory line ${lines.count + isLast}`}let isOver=count===MOST_ENTRIES&&entryOf(line,count+1,this.format);return\
\x20isOver?\"history too long\":`history line ${lines.count}`}}\n\nlet ROOM=1,EXIT=2,THING=3,PLAYER=4,HALL=0,W\
IZARD=1,NOWHERE=-1,MOST_NESTING=3,IS_SO=1,IS_NOT_SO=2;\nclass Realm{constructor(){let numbers=()=>new Int16Arr\
ay(MOST_NUMBER+1).fill(NOWHERE);this.version=0;this.next=0;this.kind=new Uint8Array(MOST_NUMBER+1);[this.owner\
,this.place,this.from,this.to,this.price]=[numbers(),numbers(),numbers(),numbers(),numbers()];this.uses=new Ui\
nt16Array(MOST_NUMBER+1);this.keys=new Map();this.askers=new Map();this.names=new Map();this.named=new Map();t\
his.add(ROOM,WIZARD);this.add(PLAYER,WIZARD);this.put(WIZARD,HALL);this.call(WIZARD,\"Wizard\")}act(change){if\
(change.kind!==\"player\"&&this.kind[change.actor]!==PLAYER)return!1;if(!this[change.kind](change))return!1;th\
is.version+=1;return!0}actUntil(version,changes){while(this.version<version)if(!this.act(changes[this.version]\
))return!1;return!0}add(kind,owner){this.kind[this.next]=kind;this.owner[this.next]=owner;return this.next++}m\
akeExit(owner,from,to){let exit=this.add(EXIT,owner);[this.from[exit],this.to[exit],this.price[exit]]=[from,to\
,1];this.uses[from]+=1;this.uses[to]+=1}put(object,place){if(this.place[object]!==NOWHERE)this.uses[this.place\
[object]]-=1;this.place[object]=place;this.uses[place]+=1}call(player,text){for(let name of this.names.get(pla\
yer)??[])this.named.delete(name);this.names.set(player,text.toLowerCase().split(\",\"));for(let name of this.n\
ames.get(player))this.named.set(name,player)}hasRoomFor(count){return this.next+count<=MOST_NUMBER+1}isFree(na\
mes,player){return names.toLowerCase().split(\",\").every(name=>(this.named.get(name)??player)===player)}owns(\
actor,object){return actor===WIZARD||this.owner[object]===actor}isOwnObject({actor,object}){return this.kind[o\
bject]!==0&&this.kind[object]!==PLAYER&&this.owns(actor,object)}isUnlocked(object,candidate){return!this.keys.\
has(object)||new Judge(this,candidate).isUnlocked(object)}setKey(object,key){for(let asked of this.keys.get(ob\
ject)?.asked??[])this.askers.get(asked).delete(object);this.keys.delete(object);if(!key)return;this.keys.set(o\
bject,key);for(let asked of key.asked){if(!this.askers.has(asked))this.askers.set(asked,new Set());this.askers\
.get(asked).add(object)}}depth(objects,further){let count=0;for(let level=new Set(objects);level.size&&count<=\
MOST_NESTING;count+=1)level=new Set([...level].flatMap(object=>[...(further(object)??[])]));return count}nests\
(object,key){let down=this.depth(key.asked,one=>(one===object?key:this.keys.get(one))?.asked);if(down===0)retu\
rn!0;return down+this.depth(this.askers.get(object)??[],one=>this.askers.get(one))<=MOST_NESTING}dig({actor,to\
,hasOut,hasBack}){let isNew=to===$;if(!isNew&&this.kind[to]!==ROOM)return!1;if(!this.hasRoomFor(isNew+hasOut+h\
asBack))return!1;let here=this.place[actor],there=isNew?this.add(ROOM,actor):to;if(hasOut)this.makeExit(actor,\
here,there);if(hasBack)this.makeExit(actor,there,here);return!0}make({actor}){if(!this.hasRoomFor(1))return!1;\
this.put(this.add(THING,actor),actor);return!0}player({actor,names}){if(actor!==this.next||!this.hasRoomFor(1)\
||!this.isFree(names,actor))return!1;this.put(this.add(PLAYER,actor),HALL);this.call(actor,names);return!0}loc\
k(change){let{object,key}=change;if(!this.isOwnObject(change)||!key.objects.every(one=>this.kind[one]!==0))ret\
urn!1;if(!this.nests(object,key))return!1;this.setKey(object,key);return!0}unlock(change){if(!this.isOwnObject\
(change))return!1;this.setKey(change.object,$);return!0}holder(thing){let at=thing;while(this.kind[at]===THING\
)at=this.place[at];return at}isInReach(actor,thing){let holder=this.holder(thing);return holder===actor||holde\
r===this.place[actor]}isPlaceFor(actor,to){if(to===actor||to===this.place[actor])return!0;if(this.kind[to]===P\
LAYER)return this.place[to]===this.place[actor];return this.kind[to]===THING&&this.isInReach(actor,to)}isWithi\
n(object,thing){let at=object;while(at!==NOWHERE&&at!==thing)at=this.place[at];return at===thing}move({actor,o\
bject,to}){if(this.kind[object]!==THING||!this.isInReach(actor,object)||this.place[object]===to)return!1;if(!t\
his.isPlaceFor(actor,to)||this.isWithin(to,object))return!1;if(!this.isUnlocked(to,object)||!this.isUnlocked(o\
bject,to))return!1;this.put(object,to);return!0}walk({actor,object}){if(this.kind[object]!==EXIT||this.from[ob\
ject]!==this.place[actor])return!1;if(!this.isUnlocked(object,actor)||!this.isUnlocked(this.to[object],actor))\
return!1;this.put(actor,this.to[object]);return!0}cost({actor,object,cost}){if(this.kind[object]!==EXIT||!this\
.owns(actor,object))return!1;this.price[object]=cost;return!0}rename({actor,object,names}){if(this.kind[object\
]===0||!this.owns(actor,object))return!1;if(this.kind[object]!==PLAYER)return!0;if(!this.isFree(names,object))\
return!1;this.call(object,names);return!0}recycle(change){let{object}=change;if(!this.isOwnObject(change)||obj\
ect===HALL||this.uses[object]!==0)return!1;if(this.kind[object]===EXIT)for(let end of[this.from[object],this.t\
o[object]])this.uses[end]-=1;if(this.place[object]!==NOWHERE)this.uses[this.place[object]]-=1;this.setKey(obje\
ct,$);this.kind[object]=0;this.place[object]=NOWHERE;return!0}say(){return!0}emote(){return!0}}\nclass Judge{c\
onstructor(realm,candidate){this.realm=realm;this.candidate=candidate;this.within=new Uint8Array(realm.next);t\
his.unlocked=new Uint8Array(realm.next)}has(object){if(this.realm.kind[object]===0)return!1;let passed=[],at=o\
bject;while(at!==NOWHERE&&at!==this.candidate&&this.within[at]===0){passed.push(at);at=this.realm.place[at]}le\
t found=at===this.candidate||this.within[at]===IS_SO;for(let one of passed)this.within[one]=found?IS_SO:IS_NOT\
_SO;return found}isUnlocked(object){let{kind,keys}=this.realm;if(kind[object]===0)return!1;if(this.unlocked[ob\
ject]===0){let key=keys.get(object);this.unlocked[object]=!key||this.isMet(key.tree)?IS_SO:IS_NOT_SO}return th\
is.unlocked[object]===IS_SO}isMet(tree){if(tree.sign===\"#\")return this.has(tree.object);if(tree.sign===\"?\"\
)return this.isUnlocked(tree.object);if(tree.sign===\"!\")return!this.isMet(tree.of);return tree.sign===\"&&\"\
?this.isMet(tree.left)&&this.isMet(tree.right):this.isMet(tree.left)||this.isMet(tree.right)}isOpen(exit){retu\
rn this.isUnlocked(exit)&&this.isUnlocked(this.realm.to[exit])}}\n\nlet MOST_COUNT=999999999,MOST_MEMBERS=8;\n\
class CertificateReader{constructor(text){this.lines=new Lines(text);this.line=$;this.wanted=0;this.certificat\
e={form:0,version:0,members:[],room:$,cost:$,isMeeting:!1}}*read(){let{certificate,lines}=this,bad=()=>({fault\
:this.wanted});if(!this.begin(\"mud proof \"))return bad();certificate.form=this.lastNumber(2);if(!certificate\
.form||!this.begin(\"version \"))return bad();certificate.version=this.lastNumber(MOST_COUNT);if(certificate.v\
ersion===$)return bad();for(this.begin();this.line?.take(\"member \");this.begin()){if(!this.readMember()||!(y\
ield*this.readLabels())||!(yield*this.readWalk()))return bad()}if(!this.isConclusion()||!this.begin(\"end\")||\
!this.line.isAtEnd)return bad();return lines.isAtEnd?{certificate}:{fault:lines.count+1}}begin(word=\"\"){this\
.wanted=this.lines.count+1;this.line=this.lines.take();return this.line!==$&&this.line.take(word)}lastNumber(m\
ost){let number=this.line.number(most);return this.line.isAtEnd?number:$}readMember(){let{members}=this.certif\
icate,{line}=this,player=line.sharp(),from=line.take(\" from \")?line.sharp():$;if(player===$||from===$||!line\
.isAtEnd)return!1;return members.push({player,from,labels:[],walk:[]})<=MOST_MEMBERS}*readLabels(){if(!this.be\
gin(\"labels\"))return!1;let{line,certificate}=this,{labels}=certificate.members.at(-1);for(let before=-1;line\
.take(\" \");){let room=line.sharp(),cost=line.take(\":\")?line.number(MOST_COUNT):$,exits=certificate.form===\
1?0:line.take(\"/\")?line.number(MOST_COUNT):$;if(cost===$||exits===$||!(room>before))return!1;labels.push([ro\
om,cost,exits]);before=room;if(labels.length%1024===0)yield 1}yield 1;return line.isAtEnd}*readWalk(){if(!this\
.begin(\"walk\"))return!1;let{line}=this,member=this.certificate.members.at(-1);if(line.take(\" nothing\"))ret\
urn line.isAtEnd;if(line.take(\" none\")){member.walk=$;return line.isAtEnd}while(line.take(\" \")){let exit=l\
ine.sharp();if(exit===$)return!1;if(member.walk.push(exit)%1024===0)yield 1}yield 1;return line.isAtEnd&&membe\
r.walk.length>0}isConclusion(){let{certificate,line}=this,count=certificate.members.length;if(!line||count===0\
)return!1;certificate.isMeeting=count>1;if(count>1&&line.take(\"meet none\"))return line.isAtEnd;certificate.r\
oom=line.take(count>1?\"meet \":\"route \")?line.sharp():$;if(certificate.room===$)return!1;if(count===1&&line\
.take(\" no way\"))return line.isAtEnd;certificate.cost=line.take(\" cost \")?this.lastNumber(MOST_COUNT):$;re\
turn certificate.cost!==$}}\nfunction replyOf({members,room,cost,isMeeting}){let sharps=numbers=>numbers.map(n\
umber=>`#${number}`).join(\" \"),way=({from,walk},to,price)=>`#${from}${to} cost ${price} by ${sharps(walk ?? \
[]) || \"nothing\"}`;if(!isMeeting){let to=` to #${room}`;return cost===$?`route #${members[0].from}${to} no w\
ay`:`route ${way(members[0], to, cost)}`}let party=`meet ${sharps(members.map(({ player }) => player))}`;if(ro\
om===$)return`${party} no meeting`;let price=({labels})=>labels.find(([labelled])=>labelled===room)?.[1],lines\
=members.map(member=>`  #${member.player} from ${way(member, \"\", price(member))}`);return[`${party} at #${ro\
om} cost ${cost}`,...lines].join(\"\\n\")}\n\nclass Labels{constructor(labels){this.cost=new Int32Array(MOST_N\
UMBER+1).fill(NOWHERE);this.exits=new Int32Array(MOST_NUMBER+1);for(let[room,cost,exits]of labels)[this.cost[r\
oom],this.exits[room]]=[cost,exits]}has(room){return this.cost[room]!==NOWHERE}is(room,cost,exits){return this\
.cost[room]===cost&&this.exits[room]===exits}isAtMost(room,cost,exits){if(!this.has(room))return!1;return this\
.cost[room]<cost||(this.cost[room]===cost&&this.exits[room]<=exits)}}\nclass Doubter{constructor(realm,form,{p\
layer,from,labels,walk}){Object.assign(this,{realm,player,from,walk,labels:new Labels(labels)});this.listed=la\
bels;this.step=form===2?1:0;this.judge=new Judge(realm,player);this.price=0;this.end=from}*doubt(isSecond){let\
{realm,player,from,labels}=this;if(realm.kind[player]!==PLAYER||isSecond)return`no such player #${player}`;if(\
realm.place[player]!==from)return`wrong start #${player}`;let isRoom=([room])=>realm.kind[room]===ROOM;if(!lab\
els.is(from,0,0)||!this.listed.every(isRoom))return`start label #${player}`;let arc=yield*this.faultyArc();if(\
arc!==$)return`arc #${arc} of #${player}`;return this.walk&&(yield*this.doubtOfWalk())}*faultyArc(){let{realm,\
labels}=this;for(let exit=0;exit<realm.next;exit+=1){if(exit%256===0)yield 1;let room=realm.from[exit],to=real\
m.to[exit];if(realm.kind[exit]!==EXIT||!labels.has(room)||!this.judge.isOpen(exit))continue;if(!labels.isAtMos\
t(to,labels.cost[room]+realm.price[exit],labels.exits[room]+this.step))return exit}return $}*doubtOfWalk(){let\
{realm,player,walk}=this;for(let[at,exit]of walk.entries()){if(realm.kind[exit]!==EXIT||realm.from[exit]!==thi\
s.end)return`walk broken at ${at + 1} of #${player}`;this.end=realm.to[exit];this.price+=realm.price[exit];if(\
at%1024===1023)yield 1}for(let[at,exit]of walk.entries()){if(!this.judge.isOpen(exit))return`walk locked at ${\
at + 1} of #${player}`;if(at%1024===1023)yield 1}return this.labels.is(this.end,this.price,this.step*walk.leng\
th)?$:`walk cost of #${player}`}endsIn(room){return this.walk!==$&&this.end===room}}\nfunction agrees(realm,{r\
oom,cost,isMeeting},members){let isClaimed=isMeeting?room!==$:cost!==$;if((isClaimed||!isMeeting)&&realm.kind[\
room]!==ROOM)return!1;if(isClaimed&&!members.every(member=>member.endsIn(room)))return!1;if(isClaimed&&Math.ma\
x(...members.map(({price})=>price))!==cost)return!1;if(!isClaimed&&members.some(({walk})=>walk!==$))return!1;i\
f(!isMeeting)return isClaimed||!members[0].labels.has(room);let common=members[0].listed.map(([number])=>numbe\
r).filter(number=>members.every(({labels})=>labels.has(number))),greatest=number=>Math.max(...members.map(({la\
bels})=>labels.cost[number])),isBetter=number=>greatest(number)<cost||(greatest(number)===cost&&number<room);r\
eturn isClaimed?!common.some(isBetter):common.length===0}\nfunction*doubtOf(realm,certificate){let members=[],\
players=new Set();for(let member of certificate.members){let doubter=new Doubter(realm,certificate.form,member\
),doubt=yield*doubter.doubt(players.has(member.player));if(doubt)return doubt;members.push(doubter);players.ad\
d(member.player);yield 1}return agrees(realm,certificate,members)?$:\"conclusion\"}\n\nlet SLICE=8,STEP=16;\nf\
unction atOnce(steps){for(;;){let{done,value}=steps.next();if(done)return value}}\nfunction pause(){return new\
\x20Promise(resolve=>{let{port1,port2}=new MessageChannel();port1.onmessage=()=>{port1.close();resolve()};port\
2.postMessage(0)})}\nasync function inSlices(steps,progress){for(let began=performance.now();;){let{done,value\
}=steps.next();if(done)return value;if(performance.now()-began<SLICE)continue;progress?.(value);await pause();\
began=performance.now()}}\nfunction finding(line,more){return{verdict:line.split(\":\")[0],text:line,...more}}\
\nclass Verdicts{constructor(){this.history=new History();this.last=new Realm();this.past=new Realm();this.fau\
lt=$}*take(text){let before=this.history.changes;this.fault=yield*this.history.read(text);if(this.history.chan\
ges!==before)[this.last,this.past]=[new Realm(),new Realm()];let{changes}=this.history;if(!this.fault&&!(yield\
*this.follow(this.last,changes.length)))this.fault=`history change ${this.last.version + 1}`;if(this.fault)thi\
s.history=new History();return this.fault}*follow(realm,version){let{changes}=this.history,began=realm.version\
;while(realm.version<version){if(!realm.actUntil(Math.min(version,realm.version+STEP),changes))return!1;yield(\
1+(realm.version-began)/(version-began))/2}return!0}*realm(version){if(version===this.last.version)return this\
.last;if(version<this.past.version)this.past=new Realm();yield*this.follow(this.past,version);return this.past\
}*judge(text){if(this.fault)return finding(`unreadable: ${this.fault}`);let{certificate,fault}=yield*new Certi\
ficateReader(text).read();if(!certificate)return finding(`unreadable: proof line ${fault}`);let{version}=certi\
ficate,says=replyOf(certificate);if(version>this.history.changes.length)return finding(`refused: version ${ver\
sion}`,{version,says});let doubt=yield*doubtOf(yield*this.realm(version),certificate);return finding(doubt?`re\
fused: ${doubt}`:\"accepted\",{version,says})}}\nclass Checker{constructor(){this.verdicts=new Verdicts();this\
.before=Promise.resolve()}get count(){return this.verdicts.history.changes.length}inTurn(steps,progress){let d\
one=this.before.then(()=>inSlices(steps,progress));this.before=done.catch(()=>$);return done}async history(tex\
t,progress){let fault=await this.inTurn(this.verdicts.take(text),progress);return fault?finding(`unreadable: $\
{fault}`):{count:this.count}}check(proof,progress){return this.inTurn(this.verdicts.judge(proof),progress)}asy\
nc judgeRecord(text,progress){let{history,proofs}=parts(text),own=new Checker(),found=[],{verdict,text:line}=a\
wait own.history(history,progress);if(verdict)return[{verdict,text:line}];for(let proof of proofs)found.push(a\
wait own.check(proof,progress));return found}}\nfunction statement(proof){let{certificate}=atOnce(new Certific\
ateReader(proof).read());return certificate&&{version:certificate.version,says:replyOf(certificate)}}\nfunctio\
n told(text){let realm=new Realm(),names=new Map(),isLegal=!0,fault=atOnce(new History((change,said)=>{let fir\
st=change.kind===\"rename\"?change.object:realm.next;isLegal&&=realm.act(change);said.forEach((one,at)=>names.\
set(first+at,one.split(\",\")[0]))}).read(text));if(fault||!isLegal)return $;let{kind,from,to,place}=realm;ret\
urn[...kind.keys()].filter(number=>kind[number]).map(number=>({number,name:names.get(number),isRoom:kind[numbe\
r]===ROOM,isExit:kind[number]===EXIT,from:from[number],to:to[number],place:place[number]}))}\nfunction lengthT\
o(text,isLast){let lines=new Lines(text);for(let line=lines.next();line!==$;line=lines.next())if(isLast(line))\
return lines.at;return text.length}\nfunction halvesOf(text){let end=lengthTo(text,line=>line.startsWith(\"end\
\x20\"));return{history:text.slice(0,end),rest:text.slice(end)}}\nfunction parts(text){let{history,rest}=halve\
sOf(text),proofs=[];for(let at=0;at<rest.length||proofs.length===0;at+=proofs.at(-1).length)proofs.push(rest.s\
lice(at,at+lengthTo(rest.slice(at),line=>line===\"end\")));return{history,proofs}}\nfunction record(history,pr\
oofs){return history+proofs.join(\"\")}\nreturn { Checker, statement, record, parts, told };\n})();\nlet COMMA\
NDS=[[\"`connect NAME`, further words ignored\",\"you are the player of that name, or a new one\"],[\"`look`, \
`l`\",\"your room\"],[\"`look X`, `look at X`, `l` likewise\",\"X\"],[\"`inventory`, `inv`, `i`\",\"your thing\
s\"],[\"`go X`\",\"you walk by X\"],[\"`take X`, `get X`\",\"X moves to you\"],[\"`drop X`\",\"X moves to your\
\x20room\"],[\"`put X in Y` (`in`, `inside`, `into`)\",\"X moves to Y\"],[\"`give X to Y` (`to`, `at`)\",\"X m\
oves to Y\"],[\"`say TEXT`, `\\\"TEXT`\",\"you say it\"],[\"`emote TEXT`, `:TEXT`\",\"you do it\"],[\"`@dig NA\
MES`, no preposition in it\",\"a new room without exits\"],[\"`@dig N to T` (`to`, `at`)\",\"an exit\"],[\"`@c\
reate NAMES`\",\"a new thing in you\"],[\"`@lock X with K` (`with`, `using`)\",\"K is the key of X\"],[\"`@unl\
ock X`\",\"X has no key\"],[\"`@key X`\",\"the key of X\"],[\"`@cost X is N`\",\"X costs N\"],[\"`@rename X to\
\x20NAMES` (`to`, `at`)\",\"X has these names\"],[\"`@recycle X`\",\"X no longer exists\"],[\"`route to R` (`t\
o`, `at`), no text before it\",\"your best way to R\"],[\"`meet P, P ..`, which is `all`\",\"where they meet, \
and the way of each\"],[\"`proof LINE`\",\"the proof of that route or meeting\"],[\"`@version`\",\"the version\
\"],[\"`@history`\",\"the changes that led to this world\"],[\"`quit`\",\"you leave\"],[\"any other line\",\"y\
ou walk through that exit\"]];\nlet SAID={reply:/^\\[(\\d+)\\] (.*?)$/,notice:/^\\((\\d+)\\) (.*?)$/,failed:/^\
(?:\\(history full\\)|\\(not stored\\)|\\(out of memory\\)|\\(line too long\\))$/,elsewhere:/^403 Forbidden: t\
his world is played at (.*?)$/,ended:/^(?:\\(server stops\\)|\\(journal fault\\)|\\(ended by the host\\))$/,ho\
st:/^\\(host: (.*?)\\)$/,volume:/^\\(volume (\\d+)\\)$/,welcome:/^welcome #(\\d+)$/,walked:/^went by #(\\d+) t\
o #(\\d+)$/,dug:/^dug (.*?)$/,newRoom:/^room #(\\d+)$/,newExit:/^exit #(\\d+)$/,newBack:/^exit back #(\\d+)$/,\
made:/^made #(\\d+)$/,renamed:/^renamed #(\\d+)$/,recycled:/^recycled #(\\d+)$/,unlocked:/^unlocked #(\\d+)$/,\
locked:/^(?:That exit is locked\\.|That place is locked\\.)$/,refused:/^(?:(.*?)\\.|(.*?)\\?)$/,named:/^(.*?) \
#(\\d+)$/,contents:/^  contents (.*?)$/,exits:/^  exits (.*?)$/,leads:/^  from #(\\d+) to #(\\d+) cost (\\d+)$\
/,held:/^inventory (.*?)$/,bye:/^bye$/,heard:/^(?:(.*?) says, \"(.*?)\"|(.*?) arrives\\.|(.*?) leaves by (.*?)\
\\.)$/,route:/^route #(\\d+) to #(\\d+) cost (\\d+) by(.*?)$/,noWay:/^route #(\\d+) to #(\\d+) no way$/,meetin\
g:/^(?:meet (.*?) at #(\\d+) cost (\\d+)|meet (.*?) no meeting)$/,history:/^history$/,historyEnd:/^end (\\d+)$\
/,proof:/^proof$/,proofEnd:/^end$/};\nlet WORDS={connect:[\"connect\"],look:[\"look\",\"l\"],go:[\"go\"],dig:[\
\"@dig\"],create:[\"@create\"],rename:[\"@rename\"],route:[\"route\"],meet:[\"meet\"],proof:[\"proof\"],to:[\"\
to\",\"at\"],comma:[\", \"],hall:[\"The Hall\"]};\n\nlet MOST_TYPED=1000,MOST_NAMES=2000;\nfunction typed(line\
){return line.replace(/\\t/g,\" \").replace(/[^ -~]/g,\"\").slice(0,MOST_TYPED)}\nfunction words(line){return \
line.trim().split(/ +/).join(\" \")}\nclass World{constructor(){this.rooms=new Map();this.exits=new Map();this\
.ties=new Map();this.visited=new Set();this.things=new Map();this.people=new Set();this.me=$;this.here=$;this.\
route=[];this.walked=0;this.revision=0;this.age=0}clear(){for(let kept of[this.rooms,this.exits,this.ties,this\
.visited,this.things,this.people])kept.clear();this.plan([]);this.age+=1}room(number,name){let known=this.room\
s.get(number);if(this.rooms.has(number)&&(name===$||name===known))return;this.rooms.set(number,name??known);th\
is.revision+=1}exit(number,told){let known=this.exits.get(number)??{},exit={...known,...told};if(this.exits.ha\
s(number)&&Object.keys(told).every(key=>known[key]===told[key]))return;this.untie(number);this.exits.set(numbe\
r,exit);for(let room of[exit.from,exit.to])if(room!==$)this.tie(number,room);this.revision+=1}tie(exit,room){t\
his.room(room);if(!this.ties.has(room))this.ties.set(room,new Set());this.ties.get(room).add(exit)}untie(numbe\
r){let{from,to}=this.exits.get(number)??{};this.ties.get(from)?.delete(number);this.ties.get(to)?.delete(numbe\
r)}exitsOf(room){let ties=[...this.ties.get(room)??[]];return ties.filter(exit=>this.exits.get(exit).from===ro\
om).sort((a,b)=>a-b)}arrive(room){this.here=room;this.room(room);this.visited.add(room);this.revision+=1}forge\
t(number){for(let exit of[number,...this.ties.get(number)??[]]){this.untie(exit);this.exits.delete(exit)}for(l\
et kept of[this.rooms,this.ties,this.visited,this.things])kept.delete(number);if(this.route.some(exit=>!this.e\
xits.has(exit)))this.plan([]);this.revision+=1}plan(exits){this.route=exits;this.walked=0;this.revision+=1}thi\
ng(number,name){this.things.set(number,name);if(this.things.size>MOST_NAMES)this.things.delete(this.things.key\
s().next().value)}heard(name){this.people.add(name);if(this.people.size>MOST_NAMES)this.people.delete(this.peo\
ple.values().next().value)}exitNamed(text,whole){let number=text.match(/^#(\\d{1,9})$/);if(number)return this.\
exits.has(Number(number[1]))?Number(number[1]):$;let own=this.exitsOf(this.here).filter(exit=>this.exits.get(e\
xit).name!==$),named=test=>own.filter(exit=>test(this.exits.get(exit).name.toLowerCase())),wanted=text.toLower\
Case(),same=named(name=>name===wanted),found=same.length||whole?same:named(name=>name.startsWith(wanted));retu\
rn found.length===1?found[0]:$}kept(){let{rooms,exits,visited,things,people,me,route,walked}=this;return{rooms\
:[...rooms],exits:[...exits],visited:[...visited],things:[...things],people:[...people],me,route,walked}}stati\
c from({rooms,exits,visited,things,people,me,route,walked}){let world=new World();for(let[number,name]of rooms\
)world.room(number,name??$);for(let[number,exit]of exits)world.exit(number,exit);Object.assign(world,{visited:\
new Set(visited),things:new Map(things),people:new Set(people),me});return Object.assign(world,{route,walked})\
}}\n\nfunction behind(verb,line=\"\"){let[,first,rest]=line.match(/^(\\S*) *([^]*)$/);return WORDS[verb].inclu\
des(first.toLowerCase())?rest:$}\nfunction aroundTo(text=\"\"){let[first,...rest]=text.split(new RegExp(` (${W\
ORDS.to.join(\"|\")}) `,\"i\"));return[first,rest.slice(1).join(\" \")]}\nfunction listed(text){return text.sp\
lit(WORDS.comma[0]).map(one=>one.match(SAID.named)).filter(Boolean).map(([,name,number])=>[Number(number),name\
])}\nfunction firstName(text=\"\"){let name=text.replace(/\"/g,\"\").split(\",\")[0].trim();return name===\"\"\
?$:name}\nfunction isRefusal(lines){return lines.length===1&&SAID.refused.test(lines[0])}\nfunction isLook(lin\
e){return behind(\"look\",line)===\"\"}\nfunction headOf({kind,line,lines:[text]}){let heads=behind(\"look\",l\
ine)===$?Object.keys(READERS):[\"named\"];return kind===\"reply\"?heads.find(name=>SAID[name].test(text)):$}\n\
function readLook(world,[,number],line,lines){let[,name]=lines[0].match(SAID.named),isHere=isLook(line),furthe\
r=row=>lines.slice(1).map(one=>one.match(SAID[row])).find(Boolean),exits=further(\"exits\"),contents=further(\
\"contents\"),way=further(\"leads\");if(contents)for(let[thing,called]of listed(contents[1]))world.thing(thing\
,called);if(way)world.exit(number,{name,from:Number(way[1]),to:Number(way[2])});if(isHere)world.arrive(number)\
;if(isHere||exits||world.rooms.has(number))readRoom(world,number,name,exits?listed(exits[1]):[]);else if(!way)\
world.thing(number,name)}\nfunction readRoom(world,number,name,exits){world.room(number,name);let now=new Map(\
exits);for(let exit of world.exitsOf(number))if(!now.has(exit))world.forget(exit);for(let[exit,called]of now)w\
orld.exit(exit,{name:called,from:number})}\nfunction readDug(world,_,line,[text]){let[doors,named]=aroundTo(be\
hind(\"dig\",line)),[out,back]=doors.split(\"|\").map(firstName),made=text.match(SAID.dug)[1].split(WORDS.comm\
a[0]),[room,exit,other]=[\"newRoom\",\"newExit\",\"newBack\"].map(row=>made.map(one=>one.match(SAID[row])?.[1]\
).find(Boolean)).map(one=>one&&Number(one)),old=named.match(/^\"?#(\\d{1,9})\"?$/),to=room??(old?Number(old[1]\
):$);if(room)world.room(to,firstName(named||doors));if(exit)world.exit(exit,{name:out,from:world.here,to});if(\
other)world.exit(other,{name:back,from:to,to:world.here})}\nfunction readWalk(world,[exit,to]){world.exit(exit\
,world.here===$?{to,locked:!1}:{from:world.here,to,locked:!1});let isNext=world.route[world.walked]===exit;wor\
ld.arrive(to);if(isNext)world.walked+=1}\nfunction readLocked(world,_,line){let exit=world.exitNamed(behind(\"\
go\",line)??line,behind(\"go\",line)===$);if(exit!==$)world.exit(exit,{locked:!0})}\nfunction readRenamed(worl\
d,[number],line){let name=firstName(aroundTo(behind(\"rename\",line))[1]);if(name===$)return;if(world.rooms.ha\
s(number))world.room(number,name);if(world.exits.has(number))world.exit(number,{name});if(world.things.has(num\
ber))world.thing(number,name)}\nfunction exitsOnWay(text){return[...(text.match(SAID.route)?.[4]??\"\").matchA\
ll(/#(\\d+)/g)].map(([,exit])=>Number(exit))}\nfunction readMade(world,[number],line){let name=firstName(behin\
d(\"create\",line));if(name!==$)world.thing(number,name)}\nfunction readHeld(world,_,line,[text]){for(let[thin\
g,name]of listed(text.match(SAID.held)[1]))world.thing(thing,name)}\nfunction readHistory(world,_,line,lines){\
let objects=checker.told(lines.slice(1).join(\"\\n\")+\"\\n\"),{me,visited,route}=world;if(!objects)return;let\
\x20locked=[...world.exits.keys()].filter(exit=>world.exits.get(exit).locked);for(let kept of[world.rooms,worl\
d.exits,world.ties])kept.clear();for(let{number,name,isRoom,isExit,from,to}of objects)if(isRoom)world.room(num\
ber,name??WORDS.hall[0]);else if(isExit)world.exit(number,{name,from,to});else if(name)world.thing(number,name\
);for(let exit of locked)if(world.exits.has(exit))world.exit(exit,{locked:!0});for(let room of visited)if(!wor\
ld.rooms.has(room))visited.delete(room);let here=objects.find(({number})=>number===me)?.place??world.here;if(h\
ere!==$)world.arrive(here);if(route.some(exit=>!world.exits.has(exit)))world.plan([])}\nlet READERS={welcome:(\
world,[me])=>Object.assign(world,{me,here:$}),walked:readWalk,dug:readDug,made:readMade,renamed:readRenamed,lo\
cked:readLocked,held:readHeld,recycled:(world,[number])=>world.forget(number),unlocked:(world,[number])=>world\
.exits.has(number)&&world.exit(number,{locked:!1}),route:(world,_,line,[text])=>world.plan(exitsOnWay(text)),n\
oWay:world=>world.plan([]),history:readHistory,meeting(){},proof(){},bye(){},};\nfunction readAnswer(world,ent\
ry){let{line,lines}=entry,head=headOf(entry);if(head)(READERS[head]??readLook)(world,lines[0].match(SAID[head]\
).slice(1).map(Number),line,lines)}\nfunction readNotice(world,text){let heard=text.match(SAID.heard);if(heard\
)world.heard(heard.slice(1).find(Boolean))}\n\nlet MOST_PROOFS=100;\nclass Conversation{constructor(world){thi\
s.world=world??new World();this.history=$;this.proofs=[];this.onAnswer=()=>{};this.onEnd=()=>{};this.volume=1;\
this.connectLine=$;this.name=$;this.begin()}begin(){this.end();this.tail=\"\";this.asked??=[];this.drop();this\
.answer=$;this.hasLeft=!1;this.isIn=!1;this.before={volume:this.volume,version:this.latest};this.latest=0;this\
.told=1;this.world.here=$}say(line,quiet=!1,answered=$){if(words(line)!==\"\")this.asked.push({line:words(line\
),quiet,answered})}drop(){for(let{answered}of this.asked.splice(0))answered?.()}take(piece){let lines=(this.ta\
il+piece).split(\"\\r\\n\"),entries=new Set();this.tail=lines.pop();for(let text of lines){let entry=this.take\
Line(text);if(entry&&!entry.quiet)entries.add(entry)}if(this.tail===\"\")this.finish();return[...entries]}take\
Line(text){let notice=text.match(SAID.notice),reply=text.match(SAID.reply);if(notice)return this.takeNotice(te\
xt,Number(notice[1]),notice[2]);if(reply)return this.takeReply(Number(reply[1]),reply[2]);if(SAID.failed.test(\
text))return this.takeRefusal(text);if(SAID.volume.test(text))this.takeVolume(Number(text.match(SAID.volume)[1\
]));if([\"volume\",\"host\",\"ended\"].some(row=>SAID[row].test(text)))return{kind:\"host\",lines:[text]};if(!\
this.answer)return{kind:\"greeting\",lines:[text]};this.answer.lines.push(text);return this.answer}takeVolume(\
volume){this.told=volume;this.reach(0)}reach(version){let{volume}=this;this.end();this.volume=this.told;this.l\
atest=volume===this.told?Math.max(this.latest,version):version;if(volume!==this.told)this.giveUp(volume)}giveU\
p(volume){this.history=$;this.onEnd(volume,this.proofs.splice(0))}takeNotice(text,version,heard){this.reach(ve\
rsion);readNotice(this.world,heard);return{kind:\"notice\",lines:[text],version}}takeReply(version,text){this.\
reach(version);let asked=this.asked.shift()??{line:\"\",quiet:!1};this.answer={kind:\"reply\",version,volume:t\
his.volume,...asked,lines:[text],isDone:!1};return this.answer}takeRefusal(text){this.end();let asked=this.ask\
ed.shift()??{line:\"\",quiet:!1},refusal={kind:\"refusal\",...asked,lines:[text],isDone:!0};this.onAnswer(refu\
sal);return refusal}finish(){if(this.answer&&isWhole(this.answer))this.done(this.answer)}done(answer){let isFi\
rst=!answer.isDone,{length}=answer.lines;if(answer.read===length)return;Object.assign(answer,{isDone:!0,read:l\
ength});this.read(answer);if(!isFirst)return;this.keep(answer);this.onAnswer(answer)}read(answer){let{line,lin\
es,quiet}=answer,head=headOf(answer);if(!quiet&&isWhole(answer))readAnswer(this.world,answer);if(head===\"bye\
\")this.hasLeft=!0;if(head!==\"welcome\")return;if(isBefore(answer,this.before)){this.world.clear();this.giveU\
p(this.volume)}this.isIn=!0;this.connectLine=line;this.name=firstName(behind(\"connect\",line)?.replace(/^([^\
\" ]+) .*$/,\"$1\"))}since({volume,version}){return volume===this.volume?this.latest-version:Infinity}end(){if\
(this.answer)this.done(this.answer);this.answer=$}keep(answer){let{version,lines}=answer,text=lines.slice(1).j\
oin(\"\\n\")+\"\\n\",head=headOf(answer);if(!isWhole(answer))return;if(head===\"history\")this.history={versio\
n,text};if(head!==\"proof\")return;this.proofs.push({version,text});if(this.proofs.length>MOST_PROOFS)this.pro\
ofs.shift()}}\nfunction isBefore(one,other){return one.volume<other.volume||(one.volume===other.volume&&one.ve\
rsion<other.version)}\nfunction isWhole(answer){return SAID[`${headOf(answer)}End`]?.test(answer.lines.at(-1))\
??!0}\n\nlet LONGEST_STEP=10,STRETCH=16,MOST_WEIGHED=5,PER_WAY=2,MOST_WORK=3000,SIDE=1<<14,MIDDLE=SIDE/2,KEPT_\
WAY=100,PASSED=8,BESIDE=12,STEPS=new Map(Object.entries({north:[0,-1,0],south:[0,1,0],east:[1,0,0],west:[-1,0,\
0],northeast:[1,-1,0],northwest:[-1,-1,0],southeast:[1,1,0],southwest:[-1,1,0],up:[0,0,1],down:[0,0,-1],n:[0,-\
1,0],s:[0,1,0],e:[1,0,0],w:[-1,0,0],ne:[1,-1,0],nw:[-1,-1,0],se:[1,1,0],sw:[-1,1,0],u:[0,0,1],d:[0,0,-1],}));\
\nfunction stepOf(exit){let{name}=exit;if(name===$||name.length>LONGEST_STEP)return $;return STEPS.get(name)??\
STEPS.get(name.toLowerCase().replace(/^(north|south)[ -](east|west)$/,\"$1$2\"))}\nfunction isAlong([x,y,z],[d\
x,dy,dz]){if(dz)return Math.sign(z)===dz;return z===0&&Math.sign(x)===dx&&Math.sign(y)===dy&&(!dx||!dy||Math.a\
bs(x)===Math.abs(y))}\nlet AROUND=[];\nfor(let x=-9;x<=9;x+=1)for(let y=-9;y<=9;y+=1)if(x||y)AROUND.push([x,y]\
);\nlet askew=([x,y])=>Math.hypot(x,y)+(x&&y?0:0.9);\nAROUND.sort((a,b)=>askew(a)-askew(b));\nfunction keyOf(x\
,y,z){return((z+MIDDLE)*SIDE+x+MIDDLE)*SIDE+y+MIDDLE}\nclass Sheet{constructor(){this.rooms=new Map();this.pas\
sed=new Map();this.spent=new Map();this.right=this.low=0}isFree([x,y,z]){return!this.rooms.has(keyOf(x,y,z))}p\
ut(room,[x,y,z]){this.rooms.set(keyOf(x,y,z),room);this.right=Math.max(this.right,x);this.low=Math.max(this.lo\
w,y)}candidate([x,y,z],step,number){let up=step?step[2]:0,straight=!step?0:up?1:STRETCH,far=number+1;if(number\
<straight)return up?[x,y,z+up]:[x+step[0]*far,y+step[1]*far,z];let round=AROUND[number-straight];return round?\
[x+round[0],y+round[1],z+up]:[this.right+far-straight-AROUND.length,y,z+up]}some(cell,step){let name=`${cell} \
${step}`,found=[];for(let number=this.spent.get(name)??0;found.length<PER_WAY;number+=1){let one=this.candidat\
e(cell,step,number);if(this.isFree(one))found.push(one);else if(!found.length)this.spent.set(name,number+1)}re\
turn found}}\nfunction passed([x,y,z],[x2,y2,z2],fits){let count=z===z2?Math.max(Math.abs(x2-x),Math.abs(y2-y)\
):0,found=0;if(count>2*STRETCH)return found;for(let at=1;at<count;at+=1){let across=x+(x2-x)*at/count,down=y+(\
y2-y)*at/count;if(fits(keyOf(Math.round(across),Math.round(down),z)))found+=1}return found}\nclass Layout{cons\
tructor(){this.cells=new Map();this.work=0}has(sheet){return[...this.cells.values()].some(cell=>cell.sheet===s\
heet)}cell(room){let cell=this.cells.get(room),hall=this.cells.get(0);if(!cell)return $;let[x,y,z]=hall?.sheet\
===cell.sheet?hall.at:[0,0,0];return{sheet:cell.sheet,x:cell.at[0]-x,y:cell.at[1]-y,z:cell.at[2]-z}}update(wor\
ld){for(let[room,{sheet,at}]of this.cells){if(world.rooms.has(room))continue;sheet.rooms.delete(keyOf(...at));\
this.cells.delete(room)}let fresh=[...world.rooms.keys()].filter(room=>!this.cells.has(room)).sort((a,b)=>a-b)\
;let most=this.work+MOST_WORK;this.spread(world,fresh.flatMap(room=>this.neighbours(world,room).filter(({cell}\
)=>cell).map(({step})=>({other:room,step}))),most);for(let room of fresh){if(this.cells.has(room))continue;if(\
this.work>=most)return!1;this.settle(room,new Sheet(),[0,0,0],[]);this.spread(world,this.neighbours(world,room\
),most)}return this.joinAll(world,most)}neighbours(world,room){let found=[];for(let number of world.ties.get(r\
oom)??[]){let exit=world.exits.get(number),isOut=exit.from===room,other=isOut?exit.to:exit.from;if(other===$||\
other===room)continue;let step=stepOf(exit);found.push({other,cell:this.cells.get(other),step:isOut?step?.map(\
one=>-one):step})}return found}spread(world,ways,most){let named=[],other=[],seen=new Set(),sort=({other:room,\
cell,step})=>{let key=step?-room-1:room;if(cell||seen.has(key))return;seen.add(key);(step?named:other).push(ro\
om)};ways.forEach(sort);for(let first=0,second=0;first<named.length||second<other.length;){if(this.work>=most)\
return;let room=first<named.length?named[first++]:other[second++];if(this.cells.has(room))continue;let near=th\
is.neighbours(world,room);this.place(room,near.filter(({cell})=>cell));near.forEach(sort)}}place(room,placed){\
let first=placed.find(({step})=>step)??placed[0],{sheet}=first.cell,ways=[first,...placed].filter(({cell})=>ce\
ll.sheet===sheet).slice(0,MOST_WEIGHED),best,most=-Infinity;for(let{cell:{at},step}of ways)for(let cell of she\
et.some(at,step)){let worth=this.worth(sheet,cell,ways);if(worth>most)[best,most]=[cell,worth]}this.settle(roo\
m,sheet,best,ways)}settle(room,sheet,at,ways){let pass=key=>sheet.passed.set(key,(sheet.passed.get(key)??0)+1)\
;sheet.put(room,at);this.cells.set(room,{sheet,at});this.work+=1;for(let{cell}of ways)passed(cell.at,at,pass)}\
worth(sheet,cell,ways){let isTaken=key=>sheet.rooms.has(key),worth=-BESIDE*(sheet.passed.get(keyOf(...cell))??\
0);for(let{cell:{at},step}of ways){let apart=cell.map((one,axis)=>one-at[axis]);this.work+=1;if(step&&isAlong(\
apart,step))worth+=KEPT_WAY;worth-=Math.abs(apart[0])+Math.abs(apart[1])+(apart[2]&&!step?KEPT_WAY:0);worth-=P\
ASSED*passed(at,cell,isTaken)}return worth}joinAll(world,most){let apart=[...world.exits.values()].filter(({fr\
om,to})=>{let[a,b]=[this.cells.get(from),this.cells.get(to)];return a&&b&&a.sheet!==b.sheet});for(let exit of[\
...apart.filter(stepOf),...apart.filter(exit=>!stepOf(exit))]){if(this.work>=most)return!1;this.join(exit)}ret\
urn!0}join(exit){let from=this.cells.get(exit.from),to=this.cells.get(exit.to),step=stepOf(exit);if(from.sheet\
===to.sheet)return;let isFirst=from.sheet.rooms.size>=to.sheet.rooms.size,[stays,goes]=isFirst?[from,to]:[to,f\
rom],way=step&&!isFirst?step.map(one=>-one):step;this.move(goes.sheet,stays.sheet,this.offset(stays,goes,way))\
}offset(stays,goes,step){let rooms=[...goes.sheet.rooms.values()].map(room=>this.cells.get(room).at);for(let n\
umber=0;;number+=1){let cell=stays.sheet.candidate(stays.at,step,number),apart=cell.map((one,axis)=>one-goes.a\
t[axis]),isFree=rooms.every(at=>{this.work+=1;return stays.sheet.isFree(at.map((one,axis)=>one+apart[axis]))})\
;if(isFree)return apart}}move(sheet,target,apart){for(let room of sheet.rooms.values()){let at=this.cells.get(\
room).at.map((one,axis)=>one+apart[axis]);target.put(room,at);this.cells.set(room,{sheet:target,at})}}kept(){l\
et sheets=[...new Set([...this.cells.values()].map(({sheet})=>sheet))];return[...this.cells].map(([room,{sheet\
,at}])=>[room,sheets.indexOf(sheet),...at])}static from(kept){let layout=new Layout(),sheets=[];for(let[room,n\
umber,...at]of kept)layout.settle(room,sheets[number]??=new Sheet(),at,[]);return layout}}\n\nlet MOST_ROOMS=8\
00,MOST_WAYS=2000,MOST_LABELS=600,MOST_LISTED=500,MOST_NAMED=40,LETTER=7.3,LINE=15,CELL={wide:190,tall:108},BO\
X={wide:118,tall:42},STUB=26,TWO_LINES=34,ONE_LINE=17,LABELLED=0.7,BEND=0.62,LONGEST=18,BUCKET=96,SPOTS=[[0,1]\
,[0,-1],[1,1],[1,-1]],ASIDE=[[1,1],[-1,1],[1,-1],[-1,-1],[1,0],[-1,0]];\nfunction short(text,most){return text\
.length>most?text.slice(0,Math.max(1,most-2))+\"..\":text}\nfunction around(x,y,wide,tall){return{x:x-wide/2,y\
:y-tall/2,wide,tall}}\nfunction overlap(a,b){return a.x<b.x+b.wide&&b.x<a.x+a.wide&&a.y<b.y+b.tall&&b.y<a.y+a.\
tall}\nclass Taken{constructor(){this.squares=new Map()}isFree(box){let{x,y,wide,tall}=box;for(let across=Math\
.floor(x/BUCKET);across<=(x+wide)/BUCKET;across+=1)for(let down=Math.floor(y/BUCKET);down<=(y+tall)/BUCKET;dow\
n+=1){let square=this.squares.get(across*4096+down);if(square&&square.some(other=>overlap(box,other)))return!1\
}return!0}add(box){let{x,y,wide,tall}=box;for(let across=Math.floor(x/BUCKET);across<=(x+wide)/BUCKET;across+=\
1)for(let down=Math.floor(y/BUCKET);down<=(y+tall)/BUCKET;down+=1){let key=across*4096+down;if(this.squares.ha\
s(key))this.squares.get(key).push(box);else this.squares.set(key,[box])}}}\nfunction kindOf(world,room){if(roo\
m===world.here)return\"here\";if(world.visited.has(room))return\"seen\";let ways=[...world.ties.get(room)??[]]\
.map(exit=>world.exits.get(exit)).filter(({to})=>to===room);return ways.length&&ways.every(({locked})=>locked)\
?\"locked\":\"heard\"}\nfunction sizeOf({scale}){return{wide:BOX.wide*scale,tall:BOX.tall*scale}}\nfunction mi\
ddleOf({x,y,scale,wide,tall},cell){return[wide/2+(cell.x-x)*CELL.wide*scale,tall/2+(cell.y-y)*CELL.tall*scale]\
}\nfunction boxesOf(world,layout,view){let{wide,tall}=view,size=sizeOf(view),boxes=[],count=0;for(let room of \
layout.cells.keys()){let cell=layout.cell(room);if(cell.sheet!==view.sheet||cell.z!==view.floor)continue;count\
+=1;let[x,y]=middleOf(view,cell);if(Math.abs(x-wide/2)>wide/2+size.wide||Math.abs(y-tall/2)>tall/2+size.tall)c\
ontinue;boxes.push({room,middle:[x,y],...around(x,y,size.wide,size.tall)})}let far=({middle:[x,y],room})=>room\
===world.here?-1:Math.hypot(x-wide/2,y-tall/2);if(boxes.length>MOST_ROOMS)boxes.sort((a,b)=>far(a)-far(b)).len\
gth=MOST_ROOMS;for(let box of boxes)Object.assign(box,{kind:kindOf(world,box.room),lines:linesOf(world,box),ma\
rks:[]});return{boxes,count}}\nfunction linesOf(world,{room,wide,tall}){let most=Math.floor((wide-8)/LETTER),n\
ame=world.rooms.get(room)??\"?\";if(tall>=TWO_LINES)return[short(name,most),`#${room}`];return tall>=ONE_LINE&\
&most>=3?[short(name,most)]:[]}\nfunction bundlesOf(world,places){let bundles=new Map();for(let room of places\
.keys())for(let number of world.ties.get(room)??[]){let exit=world.exits.get(number),{from,to}=exit;if(from===\
$||(from!==room&&places.has(from)))continue;let key=to===$?-number:Math.min(from,to)*65536+Math.max(from,to);i\
f(bundles.has(key))bundles.get(key).exits.push([number,exit]);else if(bundles.size<MOST_WAYS)bundles.set(key,{\
from,to,exits:[[number,exit]]})}return[...bundles.values()]}\nfunction edge({middle:[x,y],wide,tall},dx,dy){le\
t part=Math.min(dx?wide/2/Math.abs(dx):Infinity,dy?tall/2/Math.abs(dy):Infinity);return[x+dx*part,y+dy*part]}\
\nfunction labelOf(exits,most){let[,{name}]=exits[0];return short(name??\"?\",most)+(exits.length>1?` +${exits\
.length - 1}`:\"\")}\nclass Picture{constructor(world,layout,view){Object.assign(this,{world,layout,view,ways:\
[],labels:[],taken:new Taken(),aside:new Map()});Object.assign(this,boxesOf(world,layout,view));this.places=ne\
w Map(this.boxes.map(box=>[box.room,box]));for(let box of this.boxes)this.taken.add(box);let bundles=bundlesOf\
(world,this.places);for(let bundle of bundles)if(this.ways.length<MOST_WAYS)this.draw(bundle);this.isWhole=thi\
s.boxes.length<MOST_ROOMS&&Math.max(bundles.length,this.ways.length)<MOST_WAYS}boxOf(room){let cell=this.layou\
t.cell(room);return this.places.get(room)??(cell&&{middle:middleOf(this.view,cell),room,...sizeOf(this.view)})\
}draw({from,to,exits}){let out=exits.filter(([,exit])=>exit.from===from);if(to===$||to===from)return out.forEa\
ch(one=>this.drawStub(this.places.get(from),one));let back=exits.filter(([,exit])=>exit.from!==from),a=this.la\
yout.cell(from),b=this.layout.cell(to);if(!a||!b||a.sheet!==b.sheet)return this.drawAway(out,back);if(a.z===b.\
z)return this.drawWay(this.boxOf(from),this.boxOf(to),out,back);if(a.z===this.view.floor)this.drawFloor(this.p\
laces.get(from),out,b.z>a.z);if(b.z===this.view.floor)this.drawFloor(this.places.get(to),back,a.z>b.z)}drawAwa\
y(out,back){let drawn=[...out,...back].filter(([,{from}])=>this.places.has(from));for(let one of drawn)this.dr\
awStub(this.places.get(one[1].from),one)}look(exits){let{route,walked}=this.world,at=exits.map(([number])=>rou\
te.lastIndexOf(number)),isLocked=exits.some(([,{locked}])=>locked),isRoute=at.some(one=>one>=walked),isWalked=\
!isRoute&&at.some(one=>one>=0);return{exits:exits.map(([number])=>number),isLocked,isRoute,isWalked}}drawWay(f\
irst,second,out,back){let[x1,y1]=first.middle,[x2,y2]=second.middle,dx=x2-x1,dy=y2-y1,far=Math.hypot(dx,dy),bo\
w=this.isHidden(first.room,second.room)?2*BEND*CELL.tall*this.view.scale/far:0,bend=[(x1+x2)/2-dy*bow,(y1+y2)/\
2+dx*bow],aims=[[bend[0]-x1,bend[1]-y1],[bend[0]-x2,bend[1]-y2]],ends=[edge(first,...aims[0]),edge(second,...a\
ims[1])],arrow=!back.length?1:!out.length?0:$;this.ways.push({ends,bend:bow?bend:$,arrow,...this.look([...out,\
...back])});if(out.length)this.label(ends[0],aims[0],out);if(back.length)this.label(ends[1],aims[1],back)}isHi\
dden(from,to){let a=this.layout.cells.get(from),b=this.layout.cells.get(to);return passed(a.at,b.at,key=>a.she\
et.rooms.has(key))>0}drawStub(box,[number,exit]){let step=stepOf(exit);if(step?.[2]&&exit.to===$)return this.d\
rawFloor(box,[[number,exit]],step[2]>0);let count=this.aside.get(box.room)??0,isNamed=step&&!step[2];if(!isNam\
ed)this.aside.set(box.room,count+1);if((!isNamed&&count>=ASIDE.length)||this.ways.length>=MOST_WAYS)return;let\
[dx,dy]=isNamed?step:ASIDE[count],aim=[dx*CELL.wide,dy*CELL.tall],far=Math.hypot(...aim),start=edge(box,...aim\
),stub=STUB*Math.min(1,this.view.scale),end=[start[0]+aim[0]/far*stub,start[1]+aim[1]/far*stub];this.ways.push\
({ends:[start,end],isStub:!0,...this.look([[number,exit]])});this.label(start,aim,[[number,exit]],exit.to===ex\
it.from?\" (here)\":\"\")}drawFloor(box,exits,isUp){if(!box||!exits.length)return;let x=box.x+box.wide*(isUp?0\
.86:0.14),y=box.y+(isUp?0:box.tall);box.marks.push({x,y,isUp,isKnown:exits.some(([,{to}])=>to!==$),...this.loo\
k(exits)});this.label([x,y],[0,isUp?-1:1],exits)}label([x,y],[dx,dy],exits,note=\"\"){let{scale}=this.view,far\
=Math.hypot(dx,dy);if(scale<LABELLED||this.labels.length>=MOST_LABELS)return;let most=Math.abs(dx)>Math.abs(dy\
)*2?Math.max(5,Math.floor((far-BOX.wide*scale)/LETTER)):LONGEST,text=labelOf(exits,most)+note,wide=text.length\
*LETTER,[ux,uy]=[dx/far,dy/far],look=this.look(exits);for(let[along,side]of SPOTS){let on=(Math.abs(ux)*wide+M\
ath.abs(uy)*LINE)/2+4+along*LINE,off=((Math.abs(uy)*wide+Math.abs(ux)*LINE)/2+(look.isLocked?8:3))*side,box=ar\
ound(x+ux*on-uy*off,y+uy*on+ux*off,wide,LINE);if(!this.taken.isFree(box))continue;this.taken.add(box);this.lab\
els.push({...box,text,...look});return}}}\nfunction listOf(world,most=MOST_LISTED){return[...world.rooms.keys(\
)].sort((a,b)=>a-b).slice(0,most).map(room=>{let exits=world.exitsOf(room),more=exits.length-MOST_NAMED,kind=k\
indOf(world,room),ways=exits.slice(0,MOST_NAMED).map(number=>wayText(world,number));if(more>0)ways.push(`and $\
{more} more`);let note={here:\", you are here\",seen:\"\",heard:\", not seen yet\",locked:\", locked\"}[kind],\
name=`${world.rooms.get(room) ?? \"a room\"} #${room}${note}`;return{room,text:name+(ways.length?\": \"+ways.j\
oin(\", \"):\"\")}})}\nfunction wayText(world,number){let exit=world.exits.get(number),to=exit.to===$?\"\":` t\
o #${exit.to}`,isRoute=world.route.includes(number,world.walked),notes=(exit.locked?\" (locked)\":\"\")+(isRou\
te?\" (on the route)\":\"\");return(exit.name??\"an exit\")+to+notes}\n\nlet FIRST_WAIT=1000,MOST_WAIT=30000,L\
ASTED=10000,HAS_LEFT=1000,REASONS=new Map([[1001,\"the server has stopped\"],[1006,\"the server is not reached\
\"],[1011,\"the server is out of memory\"],[1013,\"the server is full\"]]);\nfunction whyClosed(code,reason,wa\
sOpen){if(code===1006&&wasOpen)return\"the connection was lost\";return reason?`the server says: ${reason}`:RE\
ASONS.get(code)??`code ${code}`}\nclass Connection{constructor(tools,heard){Object.assign(this,{tools,heard,st\
ate:\"off\",wait:FIRST_WAIT})}turn(state){this.state=state;this.heard.state(state)}isOn(){return this.state===\
\"on\"}connect(){if(this.state===\"on\"||this.state===\"dialing\")return;this.tools.cancel(this.timer);this.op\
enedAt=$;let socket=this.socket=this.tools.dial();socket.onopen=()=>this.opened();socket.onmessage=event=>this\
.heard.text(event.data);socket.onclose=event=>this.closed(event.code,event.reason);this.turn(\"dialing\")}hurr\
y(){if(this.state===\"waiting\")this.connect()}opened(){this.openedAt=this.tools.now();this.turn(\"on\");this.\
heard.open()}send(line){this.socket.send(line)}closed(code,reason=\"\"){let{tools}=this,wasOpen=this.openedAt!\
==$;if(wasOpen&&tools.now()-this.openedAt>=LASTED)this.wait=FIRST_WAIT;let isLeft=this.hasLeft||code===HAS_LEF\
T;this.hasLeft=!1;if(!isLeft){let wait=this.wait*(0.5+tools.chance());this.wait=Math.min(MOST_WAIT,this.wait*2\
);this.nextAt=tools.now()+wait;this.timer=tools.later(()=>this.connect(),wait)}this.turn(isLeft?\"off\":\"wait\
ing\");this.heard.closed({code,reason,why:whyClosed(code,reason,wasOpen),wasOpen,isLeft})}stop(){this.tools.ca\
ncel(this.timer);this.turn(\"off\")}}\nfunction originIn(text){return text.trim().match(SAID.elsewhere)?.[1]}\
\n\nlet MOST_TYPED_LINES=200;\nfunction namesAfter(world,first,exits){let rooms=[...world.rooms.values()].filt\
er(Boolean),things=[...world.things.values()],line=behind(\"proof\",first)??first,has=verb=>behind(verb,line)!\
==$;if(has(\"route\"))return rooms;if(has(\"meet\"))return[...world.people,...things];return has(\"go\")?exits\
:[...exits,...things,...world.people,...rooms]}\nfunction completions(world,verbs,text){let exits=world.exitsO\
f(world.here).map(exit=>world.exits.get(exit).name).filter(Boolean),starts=[...text.matchAll(/(?:^|[ ,])(?=[^ \
,])/g)].map(({index,0:gap})=>index+gap.length);for(let start of starts){let head=text.slice(0,start),tail=text\
.slice(start).toLowerCase(),names=start===0?[...verbs,...exits]:namesAfter(world,text,exits),found=[...new Set\
(names)].filter(name=>name.toLowerCase().startsWith(tail)),longer=found.filter(name=>name.length>tail.length);\
if(longer.length)return longer.sort().map(name=>head+name)}return[]}\nclass Earlier{constructor(lines=[]){this\
.lines=lines;this.rest()}add(line){if(this.lines[this.lines.length-1]!==line)this.lines.push(line);if(this.lin\
es.length>MOST_TYPED_LINES)this.lines.shift();this.rest()}rest(){this.at=this.lines.length;this.draft=$}move(w\
ay,text){this.draft??=text;for(let at=this.at+way;at>=0&&at<this.lines.length;at+=way)if(this.lines[at].starts\
With(this.draft)&&this.lines[at]!==text)return this.lines[this.at=at];if(way<0)return $;let{draft}=this;this.r\
est();return draft}}\n\nlet MOST_BY_ITSELF=20000,HISTORY_GAP=10000;\nfunction isProvable(entry){return!entry.q\
uiet&&[\"route\",\"noWay\",\"meeting\"].includes(headOf(entry))}\nfunction isProof(entry){return headOf(entry)\
===\"proof\"&&isWhole(entry)}\nlet DOUBTS=[[/^refused: version (\\d+)/,\"the history has no version $1 yet\"],\
[/^refused: no such player (#\\d+)/,\"$1 is no player\"],[/^refused: wrong start (#\\d+)/,\"$1 stands elsewher\
e\"],[/^refused: start label (#\\d+)/,\"the costs of $1 do not begin with 0\"],[/^refused: arc (#\\d+) of (#\\\
d+)/,\"exit $1 is open to $2, and leads on for less than was told\"],[/^refused: walk broken at (\\d+) of (#\\\
d+)/,\"exit $1 of the way of $2 does not begin where the one before ends\"],[/^refused: walk locked at (\\d+) \
of (#\\d+)/,\"exit $1 of the way of $2 is locked\"],[/^refused: walk cost of (#\\d+)/,\"the way of $1 does not\
\x20cost what was told\"],[/^refused: conclusion/,\"the answer does not follow from the ways\"],];\nfunction i\
nWords(line){let[pattern,words]=DOUBTS.find(([one])=>one.test(line))??[];return pattern?`refused: ${line.match\
(pattern)[0].replace(pattern, words)}`:line.replace(\"accepted\",\"checked\")}\nfunction markFor({verdict,text\
,says},entry,proof){let mark=(kind,words)=>({kind,isDone:!0,text:words}),isSame=entry.volume===proof.volume,is\
Now=isSame&&entry.version===proof.version,at=`at ${proof.version}${isSame ? \"\" : ` of volume ${proof.volume}\
`}`;if(verdict!==\"accepted\")return mark(\"alarm\",inWords(text));if(entry===proof||says===entry.lines.join(\
\"\\n\"))return mark(\"checked\",isNow?\"checked\":`checked ${at}`);return isNow?mark(\"alarm\",`refused: the \
proof is of another answer: ${says}`):mark(\"checked\",`not the answer any more: ${at} ${says}, checked`)}\ncl\
ass Checks{constructor(judge,act){Object.assign(this,{judge,act,volume:1,last:Promise.resolve(),isAlways:!0})}\
answered(entry){if(entry.quiet||!(isProvable(entry)||isProof(entry)))return;let isByItself=this.isAlways&&entr\
y.version<=MOST_BY_ITSELF&&isProvable(entry);if(isByItself)this.check(entry);else this.mark(entry,{kind:\"offe\
r\",text:\"check\",task:()=>this.check(entry)})}mark(entry,mark){entry.mark=mark;this.act.mark(entry)}check(en\
try){let show=part=>this.mark(entry,{kind:\"\",text:`checking ${Math.round(100 * part)} %`}),task=()=>this.che\
ck(entry),again=fault=>({kind:\"offer\",text:`not checked: ${fault.message} Again?`,task});show(0);this.last=t\
his.last.then(()=>this.find(entry,show)).catch(again).then(mark=>this.mark(entry,mark));return this.last}async\
\x20find(entry,show){let proof=isProof(entry)?entry:await this.ask(`proof ${entry.line}`);if(!isProof(proof))t\
hrow new Error(proof.lines[0]);let{judge}=this;this.stays(proof.volume);let fault=judge.count<proof.version?aw\
ait this.learn(judge,proof.volume,show):$;return markFor(fault??await judge.check(proof.lines.slice(1).join(\"\
\\n\")+\"\\n\",show),entry,proof)}stays(volume){if(volume!==this.volume)throw new Error(`volume ${volume} has \
ended.`)}async ask(line){let answer=await this.act.ask(line);if(!answer)throw new Error(\"the connection was l\
ost\");return answer}async learn(judge,volume,show){let wait=(this.learnedAt??-HISTORY_GAP)+HISTORY_GAP-this.a\
ct.now();if(wait>0)await new Promise(go=>this.act.later(go,wait));let answer=await this.ask(\"@history\");this\
.learnedAt=this.act.now();if(headOf(answer)!==\"history\")throw new Error(answer.lines[0]);this.stays(volume);\
let found=await judge.history(answer.lines.slice(1).join(\"\\n\")+\"\\n\",show);return found.verdict?found:$}}\
\n\nlet BEHIND=250;\nfunction onceAFrame(task){let isAsked=!1,run=()=>{isAsked=!1;task()};return()=>{if(isAske\
d)return;isAsked=!0;if(document.hidden)setTimeout(run,BEHIND);else requestAnimationFrame(run)}}\nfunction on(n\
ode,task,name=\"click\"){node.addEventListener(name,task,{passive:!1})}\nfunction element(name,kind,text=\"\")\
{let node=document.createElement(name);node.className=kind;node.textContent=text;return node}\n\nlet MOST_ENTR\
IES=5000,MOST_LINES=150000,MOST_KEPT=600,GROUP=100,FOLDED=20,MOST_OPEN=1000,MOST_SPOKEN=12,SIGNS={mine:\"> \",\
page:\"-- \"};\nfunction isLong({kind,lines}){return lines.length>=FOLDED||(kind===\"reply\"&&(SAID.history.te\
st(lines[0])||SAID.proof.test(lines[0])))}\nfunction timeOf(entry){let time=new Date(entry.time),two=number=>S\
tring(number).padStart(2,\"0\");return`${two(time.getHours())}:${two(time.getMinutes())}`}\nfunction textOf({k\
ind,version,lines,mark}){let first=kind===\"reply\"?`[${version}] `:SIGNS[kind]??\"\";return first+lines.join(\
\"\\n\")+(mark?.text?`  {${mark.text}}`:\"\")}\nclass Book{constructor(){this.entries=[];this.lines=0}add(entr\
y){entry.time??=Date.now();entry.counted=entry.lines.length;this.entries.push(entry);this.lines+=entry.counted\
}grown(entry){this.lines+=entry.lines.length-entry.counted;entry.counted=entry.lines.length}isFull(group){retu\
rn this.entries.length>MOST_ENTRIES||(this.lines>MOST_LINES&&this.entries.length>group)}drop(count){for(let{co\
unted}of this.entries.splice(0,count))this.lines-=counted}text(){return this.entries.map(entry=>`${timeOf(entr\
y)} ${textOf(entry)}\\n`).join(\"\")}kept(){return this.entries.slice(-MOST_KEPT).map(({kind,version,line,line\
s,time,mark})=>{let told=isLong({kind,lines})?[lines[0]+` (${lines.length} lines)`]:lines;return{kind,version,\
line,lines:told,time,mark:mark?.isDone?mark:$}})}}\nclass Log{constructor(parts,book){Object.assign(this,{part\
s,book,waiting:[],changed:new Set(),groups:[],isAtEnd:!0,unseen:0});this.soon=onceAFrame(()=>this.flush());on(\
parts.log,()=>this.scrolled(),\"scroll\");on(parts.fresh,()=>this.toEnd());new ResizeObserver(()=>this.isAtEnd\
&&this.pin()).observe(parts.log)}show(entry){if(entry.node)this.changed.add(entry);else if(!entry.isWaiting)th\
is.waiting.push(entry);entry.isWaiting=!0;this.soon()}tell(text,kind=\"page\"){this.show({kind,lines:[text]})}\
mine(line){this.isAtEnd=!0;this.show({kind:\"mine\",lines:[line]})}flush(){let entries=this.waiting.splice(0),\
isAtEnd=this.isAtEnd;for(let entry of entries){this.book.add(entry);this.last().append(entry.node=nodeOf(entry\
))}for(let entry of this.changed)this.renew(entry);this.changed.clear();this.trim();this.speak(entries);if(isA\
tEnd)this.pin();else this.count(entries.reduce((sum,entry)=>sum+(isLong(entry)?1:entry.lines.length),0))}last(\
){let group=this.groups[this.groups.length-1];if(group&&group.childElementCount<GROUP)return group;let next=el\
ement(\"div\",\"\");this.groups.push(next);this.groups[this.groups.length-3]?.classList.add(\"done\");this.par\
ts.entries.append(next);return next}trim(){while(this.groups.length>1&&this.book.isFull(this.groups[0].childEl\
ementCount)){let group=this.groups.shift();this.book.drop(group.childElementCount);group.remove()}}renew(entry\
){this.book.grown(entry);let node=nodeOf(entry);if(entry.node.open)node.open=!0;entry.node.replaceWith(node);e\
ntry.node=node}speak(entries){let{spoken}=this.parts,heard=entries.filter(entry=>entry.kind!==\"mine\"&&entry.\
isSilent!==!0),said=heard.slice(0,MOST_SPOKEN).map(entry=>isLong(entry)?`${entry.lines[0]}, ${entry.lines.leng\
th} lines`:entry.lines.join(\", \"));if(heard.length>MOST_SPOKEN)said.push(`and ${heard.length - MOST_SPOKEN} \
more`);for(let text of said)spoken.append(element(\"p\",\"\",text));while(spoken.childElementCount>3*MOST_SPOK\
EN)spoken.firstChild.remove()}scrolled(){let{log}=this.parts;this.isAtEnd=log.scrollTop+log.clientHeight>=log.\
scrollHeight-24;if(this.isAtEnd)this.count(-this.unseen)}pin(){this.parts.log.scrollTop=1e9;this.count(-this.u\
nseen)}toEnd(){this.isAtEnd=!0;this.pin()}count(lines){if(!lines)return;this.unseen+=lines;this.parts.fresh.hi\
dden=this.unseen===0;this.parts.fresh.textContent=this.unseen===1?\"1 new line\":`${this.unseen} new lines`}}\
\nfunction classesOf({kind,line,lines}){if(kind!==\"reply\")return kind;return isRefusal(lines)?\"reply refuse\
d\":isLook(line??\"\")?\"reply place\":\"reply\"}\nfunction nodeOf(entry){let{kind,version,lines,mark}=entry,i\
sFolded=isLong(entry),node=element(isFolded?\"details\":\"p\",classesOf(entry)),head=isFolded?element(\"summar\
y\",\"\"):node,heard=kind===\"notice\"?lines[0].match(SAID.notice):$;node.dataset.time=timeOf(entry);if(kind==\
=\"reply\"&&version!==$)head.append(element(\"span\",\"version\",`[${version}] `));if(heard)head.append(elemen\
t(\"span\",\"version\",`(${heard[1]}) `));if(isFolded)node.append(head,...folded(node,lines));head.append(isFo\
lded?`${lines[0]} `:heard?heard[2]:(SIGNS[kind]??\"\")+lines.join(\"\\n\"));if(isFolded)head.append(element(\"\
b\",\"\",`${lines.length.toLocaleString(\"en\")} lines`));if(mark)head.append(markOf(mark));return node}\nfunc\
tion folded(node,lines){let inner=element(\"pre\",\"\");node.setAttribute(\"aria-live\",\"off\");on(node,()=>{\
if(!node.open||inner.textContent)return;let more=lines.length-MOST_OPEN,rest=more>0?`\\n.. and ${more} more: s\
ave the log`:\"\";inner.textContent=lines.slice(1,MOST_OPEN).join(\"\\n\")+rest},\"toggle\");return[inner]}\nf\
unction markOf({text,kind,task}){let node=element(task?\"button\":\"span\",`mark ${kind}`,text);if(task)Object\
.assign(node,{type:\"button\",onclick:task});return node}\n\nlet INKS=[\"back\",\"fore\",\"dim\",\"mark\",\"of\
f\",\"room\",\"code\"];\nfunction inksOf(element){let style=getComputedStyle(element);return Object.fromEntrie\
s(INKS.map(name=>[name,style.getPropertyValue(`--${name}`).trim()]))}\nfunction paint(pen,picture,ink){let{wid\
e,tall}=picture.view;pen.clearRect(0,0,wide,tall);Object.assign(pen,{font:`12px ${ink.code}`,textAlign:\"cente\
r\",textBaseline:\"middle\",lineJoin:\"round\"});for(let way of picture.ways)paintWay(pen,way,ink);for(let lab\
el of picture.labels)paintLabel(pen,label,ink);for(let box of picture.boxes)paintRoom(pen,box,ink);for(let way\
\x20of picture.ways)if(way.isLocked)paintLock(pen,...halfway(way),ink);let here=picture.boxes.find(({kind})=>k\
ind===\"here\");if(picture.pointer&&!here)paintPointer(pen,picture.pointer,ink)}\nfunction paintWay(pen,{ends:\
[[x1,y1],[x2,y2]],bend,arrow,isStub,isLocked,isRoute,isWalked},ink){let isMarked=isRoute||isWalked;pen.strokeS\
tyle=pen.fillStyle=isMarked?ink.mark:isLocked?ink.off:ink.dim;pen.lineWidth=isRoute?4:isLocked||isWalked?2:1.5\
;pen.setLineDash(isWalked?[2,5]:isLocked?[6,4]:isStub?[3,3]:[]);pen.beginPath();pen.moveTo(x1,y1);if(bend)pen.\
quadraticCurveTo(...bend,x2,y2);else pen.lineTo(x2,y2);pen.stroke();pen.setLineDash([]);let from=bend??(arrow?\
[x1,y1]:[x2,y2]);if(arrow!==$)paintArrow(pen,from,arrow?[x2,y2]:[x1,y1])}\nfunction halfway({ends:[a,b],bend})\
{return a.map((one,axis)=>(one+b[axis]+2*(bend?.[axis]??(one+b[axis])/2))/4)}\nfunction paintArrow(pen,[x1,y1]\
,[x2,y2]){let turn=Math.atan2(y2-y1,x2-x1);pen.beginPath();pen.moveTo(x2,y2);for(let side of[-0.4,0.4])pen.lin\
eTo(x2-10*Math.cos(turn+side),y2-10*Math.sin(turn+side));pen.fill()}\nfunction paintLock(pen,x,y,ink){pen.fill\
Style=pen.strokeStyle=ink.off;pen.fillRect(x-5,y-2,10,8);pen.lineWidth=2;pen.beginPath();pen.arc(x,y-2,3.5,Mat\
h.PI,0);pen.stroke()}\nfunction paintRoom(pen,{x,y,wide,tall,kind,lines,marks},ink){let isHere=kind===\"here\"\
,isSmall=tall<ONE_LINE;pen.fillStyle=isHere&&isSmall?ink.mark:kind===\"heard\"?ink.back:ink.room;pen.strokeSty\
le=isHere?ink.mark:kind===\"locked\"?ink.off:ink.dim;pen.lineWidth=isHere?3:1.5;pen.setLineDash(kind===\"heard\
\"?[5,3]:[]);pen.beginPath();pen.roundRect(x,y,wide,tall,Math.min(7,tall/3));pen.fill();pen.stroke();pen.setLi\
neDash([]);if(kind===\"locked\"&&!isSmall)pen.strokeRect(x+3.5,y+3.5,wide-7,tall-7);if(kind===\"locked\")paint\
Lock(pen,x+1,y+1,ink);if(isHere)paintHere(pen,x,y+tall/2,ink);lines.forEach((text,at)=>{pen.fillStyle=at||kind\
===\"heard\"?ink.dim:ink.fore;pen.fillText(text,x+wide/2,y+tall/2+(at-(lines.length-1)/2)*LINE)});for(let mark\
\x20of marks)paintMark(pen,mark,ink)}\nfunction paintHere(pen,x,y,ink){pen.fillStyle=ink.mark;pen.beginPath();\
for(let[dx,dy]of[[-8,0],[0,-8],[8,0],[0,8]])pen.lineTo(x+dx,y+dy);pen.fill()}\nfunction paintMark(pen,{x,y,isU\
p,isKnown,isLocked,isRoute},ink){pen.fillStyle=isKnown?isRoute?ink.mark:isLocked?ink.off:ink.fore:ink.back;pen\
.strokeStyle=isRoute?ink.mark:isLocked?ink.off:ink.fore;pen.lineWidth=1.5;pen.beginPath();for(let[dx,dy]of[[-7\
,4],[7,4],[0,-7]])pen.lineTo(x+dx,y+(isUp?dy:-dy));pen.closePath();pen.fill();pen.stroke();if(isLocked)paintLo\
ck(pen,x+11,y,ink)}\nfunction paintLabel(pen,{x,y,wide,tall,text,isRoute,isLocked},ink){pen.fillStyle=ink.back\
;pen.fillRect(x,y,wide,tall);pen.fillStyle=isRoute?ink.mark:isLocked?ink.off:ink.fore;pen.fillText(text,x+wide\
/2,y+tall/2+0.5,wide)}\nfunction paintPointer(pen,{x,y,turn},ink){pen.fillStyle=ink.mark;pen.beginPath();for(l\
et[far,side]of[[13,0],[11,2.5],[11,-2.5]])pen.lineTo(x+far*Math.cos(turn+side),y+far*Math.sin(turn+side));pen.\
fill();pen.fillText(\"you\",x-24*Math.cos(turn),y-16*Math.sin(turn))}\n\nlet SCALES={least:0.08,most:2,step:1.\
25},FADE=1500,MOVED=5,PAN=60;\nclass MapView{constructor(parts,onRoom){Object.assign(this,{parts,onRoom,layout\
:new Layout(),age:0,drawn:-1,listed:-1,fingers:new Map()});this.view={sheet:$,floor:0,x:0,y:0,scale:1,wide:0,t\
all:0};this.soon=onceAFrame(()=>this.draw());this.pen=parts.canvas.getContext(\"2d\");this.listen();new Resize\
Observer(()=>this.soon()).observe(parts.window);on(parts.map,()=>this.show(this.world),\"toggle\");on(parts.wo\
rds,()=>this.list(),\"toggle\");on(matchMedia(\"(prefers-color-scheme: dark)\"),this.soon,\"change\")}show(wor\
ld){let isMoved=this.world!==world||this.here!==world.here;Object.assign(this,{world,here:world.here});this.pa\
rts.summary.textContent=this.summary();if(isMoved)this.isMovedByHand=!1;if(world.revision!==this.drawn)this.so\
on();this.list();if(world.route.length&&world.walked>=world.route.length)this.fade()}summary(){let{rooms,here}\
=this.world,place=here===$?\"\":`: ${rooms.get(here) ?? \"a room\"} #${here}`;return`Map${place}`}fade(){let{r\
oute}=this.world;if(this.fading===route)return;this.fading=route;setTimeout(()=>{if(this.world.route===route)t\
his.world.plan([]);this.show(this.world)},FADE)}draw(){let{parts,view,world}=this;if(!world||!parts.map.open||\
!parts.window.clientWidth)return;if(this.age!==world.age)this.layout=new Layout();this.age=world.age;let isSet\
tled=this.layout.update(world),{clientWidth:wide,clientHeight:tall}=parts.window;Object.assign(view,{wide,tall\
});this.follow();let picture=new Picture(world,this.layout,view),ratio=devicePixelRatio;picture.pointer=this.p\
ointer();let[width,height]=[Math.round(wide*ratio),Math.round(tall*ratio)],{canvas}=parts;if(canvas.width!==wi\
dth||canvas.height!==height)Object.assign(canvas,{width,height});this.pen.setTransform(ratio,0,0,ratio,0,0);pa\
int(this.pen,picture,inksOf(parts.window));Object.assign(this,{picture,drawn:isSettled?world.revision:-1});par\
ts.note.textContent=isSettled?this.note(picture):\"Placing rooms ..\";parts.floor.textContent=this.floorName()\
;if(!isSettled)this.soon()}follow(){let{view}=this,cell=this.layout.cell(this.here)??this.layout.cell(0);if(!c\
ell||(this.isMovedByHand&&this.layout.has(view.sheet)))return;let isOther=view.sheet!==cell.sheet,[x,y]=middle\
Of(view,cell),{wide,tall}=sizeOf(view);Object.assign(view,{sheet:cell.sheet,floor:cell.z});let isIn=x>wide&&x<\
view.wide-wide&&y>tall&&y<view.tall-tall;if(isOther||!isIn)Object.assign(view,{x:cell.x,y:cell.y})}pointer(){l\
et{view}=this,cell=this.layout.cell(this.here);if(!cell||cell.sheet!==view.sheet||cell.z!==view.floor)return $\
;let[x,y]=middleOf(view,cell),edge=18;if(x>0&&x<view.wide&&y>0&&y<view.tall)return $;return{x:Math.max(edge,Ma\
th.min(view.wide-edge,x)),y:Math.max(edge,Math.min(view.tall-edge,y)),turn:Math.atan2(y-view.tall/2,x-view.wid\
e/2)}}note({boxes,count,isWhole}){let all=this.world.rooms.size,apart=all-count;if(!all)return\"Type look to s\
ee where you are.\";let part=isWhole?\"\":`Drawn in part: ${boxes.length} rooms, the nearest. `;return`${part}\
${all} ${all === 1 ? \"room\" : \"rooms\"}`+(apart?`, ${apart} on other floors or apart`:\"\")}floorName(){let\
{floor}=this.view;return floor?`floor ${floor > 0 ? \"+\" : \"\"}${floor}`:\"floor 0\"}list(){let{world,parts}\
=this;if(!world||!parts.words.open||!parts.map.open||this.listed===world.revision)return;this.listed=world.rev\
ision;let wanted=listOf(world);this.items??=new Map();for(let[room,{item}]of this.items)if(!world.rooms.has(ro\
om))item.remove(),this.items.delete(room);let after=parts.rooms.firstElementChild;for(let{room,text}of wanted)\
{let{item,button}=this.items.get(room)??this.newItem(room);if(button.textContent!==text)button.textContent=tex\
t;if(item===after)after=after.nextElementSibling;else parts.rooms.insertBefore(item,after)}let more=world.room\
s.size-wanted.length;parts.more.textContent=more>0?`${more} more rooms are not listed.`:\"\"}newItem(room){let\
\x20item=element(\"li\",\"\"),button=element(\"button\",\"\");button.type=\"button\";on(button,()=>this.onRoom\
(room));item.append(button);this.items.set(room,{item,button});return this.items.get(room)}listen(){let{window\
:pane,up,down,larger,smaller,whole,home}=this.parts;on(pane,event=>this.press(event),\"pointerdown\");on(pane,\
event=>this.drag(event),\"pointermove\");for(let name of[\"pointerup\",\"pointercancel\"])on(pane,event=>this.\
lift(event),name);on(pane,event=>{event.preventDefault();this.zoom(SCALES.step**-Math.sign(event.deltaY),event\
.offsetX,event.offsetY)},\"wheel\");on(pane,event=>this.key(event),\"keydown\");on(up,()=>this.change({floor:t\
his.view.floor+1}));on(down,()=>this.change({floor:this.view.floor-1}));on(larger,()=>this.zoom(SCALES.step));\
on(smaller,()=>this.zoom(1/SCALES.step));on(whole,()=>this.whole());on(home,()=>this.home())}change(values){th\
is.isMovedByHand=!0;Object.assign(this.view,values);this.soon()}home(){this.change({sheet:$,scale:Math.max(1,t\
his.view.scale)});this.isMovedByHand=!1}whole(){let{view}=this,cells=[...this.layout.cells.keys()].map(room=>t\
his.layout.cell(room)).filter(({sheet,z})=>sheet===view.sheet&&z===view.floor);if(!cells.length)return;let ran\
ge=axis=>cells.reduce(([a,b],cell)=>[Math.min(a,cell[axis]),Math.max(b,cell[axis])],[Infinity,-Infinity]),[lef\
t,right]=range(\"x\"),[top,low]=range(\"y\"),fits=Math.min(view.wide/((right-left+1)*CELL.wide),view.tall/((lo\
w-top+1)*CELL.tall));this.change({x:(left+right)/2,y:(top+low)/2,scale:Math.max(SCALES.least,Math.min(1,fits))\
})}zoom(times,x=this.view.wide/2,y=this.view.tall/2){let{view}=this,scale=Math.max(SCALES.least,Math.min(SCALE\
S.most,view.scale*times)),part=1/view.scale-1/scale,dx=(x-view.wide/2)/CELL.wide,dy=(y-view.tall/2)/CELL.tall;\
this.change({scale,x:view.x+dx*part,y:view.y+dy*part})}pan(dx,dy){let{view}=this;this.change({x:view.x-dx/CELL\
.wide/view.scale,y:view.y-dy/CELL.tall/view.scale})}press(event){this.fingers.set(event.pointerId,[event.offse\
tX,event.offsetY]);this.moved=this.fingers.size>1?MOVED:0}drag(event){let from=this.fingers.get(event.pointerI\
d),to=[event.offsetX,event.offsetY];if(!from)return;let[dx,dy]=[to[0]-from[0],to[1]-from[1]],others=[...this.f\
ingers].filter(([id])=>id!==event.pointerId);this.moved+=Math.hypot(dx,dy);if(this.moved<MOVED)return;event.cu\
rrentTarget.setPointerCapture(event.pointerId);this.fingers.set(event.pointerId,to);if(!others.length)return t\
his.pan(dx,dy);let[,other]=others[0],apart=([x,y])=>Math.hypot(x-other[0],y-other[1]);this.zoom(apart(to)/Math\
.max(1,apart(from)),(to[0]+other[0])/2,(to[1]+other[1])/2)}lift(event){let from=this.fingers.get(event.pointer\
Id);this.fingers.delete(event.pointerId);if(!from||this.moved>=MOVED||event.type!==\"pointerup\")return;let{bo\
xes=[],pointer}=this.picture??{},box=boxes.find(one=>overlap(one,around(...from,1,1)));if(box)this.onRoom(box.\
room);else if(pointer&&Math.hypot(from[0]-pointer.x,from[1]-pointer.y)<40)this.home()}key(event){let moves={Ar\
rowLeft:[PAN,0],ArrowRight:[-PAN,0],ArrowUp:[0,PAN],ArrowDown:[0,-PAN]},{floor}=this.view,tasks={\"+\":()=>thi\
s.zoom(SCALES.step),\"-\":()=>this.zoom(1/SCALES.step),Home:()=>this.home(),PageUp:()=>this.change({floor:floo\
r+1}),PageDown:()=>this.change({floor:floor-1}),0:()=>this.whole()},task=moves[event.key]?()=>this.pan(...move\
s[event.key]):tasks[event.key];if(!task||event.ctrlKey||event.metaKey)return;event.preventDefault();task()}}\n\
\nlet MOST_BUTTONS=60;\nfunction isCommand(verbs,line){return verbs.includes(line.split(\" \")[0].toLowerCase(\
))}\nfunction lineFor(world,number,verbs){let{name}=world.exits.get(number),isPlain=name!==$&&/^[A-Za-z][A-Za-\
z0-9 '-]*$/.test(name)&&words(name)===name;return isPlain&&!isCommand(verbs,name)&&world.exitNamed(name,!0)===\
number?name:`go #${number}`}\nclass Trip{constructor(entry){let head=headOf(entry),[text]=entry.lines,[from,to\
,cost]=text.match(SAID[head]).slice(1).map(Number);Object.assign(this,{entry,from,to,cost,exits:exitsOnWay(tex\
t),isNoWay:head===\"noWay\"});Object.assign(this,{isRunning:!1,fault:\"\"})}isThere(world){return!this.isNoWay\
&&world.here===this.to}next(world){let{route,walked}=world,exit=this.exits[walked],isShown=route.length===this\
.exits.length&&route.every((one,at)=>one===this.exits[at]),from=walked?world.exits.get(this.exits[walked-1])?.\
to:this.from;return isShown&&exit!==$&&from===world.here?exit:$}stepped(world,entry){let isOn=entry!==$&&headO\
f(entry)===\"walked\";if(!isOn)this.fault=entry?entry.lines[0]:\"the connection was lost\";let exit=isOn&&this\
.isRunning?this.next(world):$;this.isRunning=exit!==$;return exit}text(world){let name=`${world.rooms.get(this\
.to) ?? \"room\"} #${this.to}`,count=this.exits.length;if(this.isNoWay)return`No way to ${name}`;if(this.isThe\
re(world))return`You are at ${name}`;let way=`cost ${this.cost}, exit ${world.walked + 1} of ${count}`;return`\
To ${name}: ${way}`+(this.fault?`. Stopped: ${this.fault}`:\"\")}}\nclass Hands{constructor(parts,world,verbs,\
act){Object.assign(this,{parts,world,verbs,act});this.soon=onceAFrame(()=>this.draw());on(parts.step,()=>this.\
go(!1));on(parts.all,()=>this.trip?.isRunning?this.stop():this.go(!0));on(parts.again,()=>this.act.say(this.tr\
ip.entry.line));on(parts.close,()=>this.close())}answered(entry){if([\"route\",\"noWay\"].includes(headOf(entr\
y)))this.trip=new Trip(entry);this.soon()}go(all){let exit=this.trip?.next(this.world);if(exit===$)return;Obje\
ct.assign(this.trip,{isRunning:all,fault:\"\"});this.take(this.trip,exit)}take(trip,exit){this.act.say(`go #${\
exit}`,entry=>{let next=trip.stepped(this.world,entry);if(next!==$&&trip===this.trip)this.take(trip,next);else\
\x20this.act.arrived();this.soon()});this.soon()}stop(){if(this.trip)this.trip.isRunning=!1;this.soon()}close(\
){this.stop();this.trip=$;this.world.plan([]);this.act.arrived();this.soon()}draw(){this.drawExits();this.endT\
rip();let{parts,trip,world}=this;parts.route.hidden=!trip;if(!trip)return;let next=trip.next(world),since=this\
.act.since(trip.entry),{mark,volume}=trip.entry,isOpen=next!==$,left=trip.exits.length-world.walked,isLost=!is\
Open&&!trip.isNoWay&&!trip.isThere(world);parts.told.textContent=trip.text(world)+(isLost?\". You left this wa\
y\":\"\");parts.mark.textContent=mark?.text??\"\";parts.mark.className=`mark ${mark?.kind ?? \"\"}`;parts.age.\
textContent=since===Infinity?`of volume ${volume}`:since>0?`${since} ${since === 1 ? \"change\" : \"changes\"}\
\x20since`:\"\";parts.again.hidden=!(since>0||isLost);parts.step.hidden=!isOpen||trip.isRunning;parts.step.tex\
tContent=isOpen?`Go: ${world.exits.get(next)?.name ?? `#${next}`}`:\"\";parts.all.hidden=!isOpen||(left<2&&!tr\
ip.isRunning);parts.all.textContent=trip.isRunning?\"Stop\":`Go all ${left}`}endTrip(){let{trip}=this,isThere=\
trip?.isThere(this.world);if(isThere)trip.wasThere=!0;else if(trip?.wasThere)this.trip=$}drawExits(){let{parts\
,world}=this,exits=world.exitsOf(world.here).slice(0,MOST_BUTTONS),hadFocus=parts.exits.contains(document.acti\
veElement);while(parts.exits.childElementCount>exits.length)parts.exits.lastChild.remove();while(parts.exits.c\
hildElementCount<exits.length)parts.exits.append(this.exitButton());exits.forEach((number,at)=>this.drawExit(p\
arts.exits.children[at],number));if(hadFocus&&!parts.exits.contains(document.activeElement))parts.line.focus()\
}exitButton(){let button=element(\"button\",\"exit\");button.type=\"button\";button.append(element(\"b\",\"\")\
,element(\"small\",\"\"));on(button,()=>this.act.say(lineFor(this.world,Number(button.dataset.exit),this.verbs\
)));return button}drawExit(button,number){let{name,to,locked}=this.world.exits.get(number),[way,room]=button.c\
hildren,place=to===$?\"\":this.world.rooms.get(to)??`#${to}`,text=locked?`${place} (locked)`.trim():place,isNe\
xt=this.trip?.next(this.world)===number;if(way.textContent!==(name??`#${number}`))way.textContent=name??`#${nu\
mber}`;if(room.textContent!==text)room.textContent=text;button.dataset.exit=number;button.className=`exit${loc\
ked ? \" locked\" : \"\"}${isNext ? \" next\" : \"\"}`}}\n\nclass Line{constructor(form,input,act,lines){Objec\
t.assign(this,{input,act,earlier:new Earlier(lines),offers:[]});on(form,event=>this.submit(event),\"submit\");\
on(input,event=>this.key(event),\"keydown\");on(input,()=>{this.earlier.rest();this.offers=[]},\"input\")}subm\
it(event){event.preventDefault();let line=typed(this.input.value);if(line===\"\"||!this.act.send(line))return;\
this.earlier.add(line);this.set(\"\")}set(text){this.input.value=text;this.input.setSelectionRange(text.length\
,text.length)}key(event){let{key}=event,isPlain=!event.ctrlKey&&!event.altKey&&!event.metaKey,tasks={ArrowUp:(\
)=>this.back(-1),ArrowDown:()=>this.back(1),Escape:()=>this.clear(),Tab:()=>this.complete(event.shiftKey),Page\
Up:()=>this.act.page(-1),PageDown:()=>this.act.page(1)};if(key!==\"Tab\"&&key!==\"Shift\")this.offers=[];if(!i\
sPlain||!tasks[key])return;if(tasks[key]()!==!1)event.preventDefault()}back(way){let text=this.earlier.move(wa\
y,this.input.value);if(text!==$)this.set(text)}clear(){this.set(\"\");this.earlier.rest()}complete(isBack){let\
\x20text=this.input.value;if(text===\"\")return!1;if(!this.offers.length||!this.offers.includes(text)){this.of\
fers=completions(this.act.world,this.act.verbs,text);if(this.offers.length)this.offers.push(text)}if(!this.off\
ers.length)return!1;let at=this.offers.indexOf(text),count=this.offers.length;this.set(this.offers[(at+(isBack\
?count-1:1))%count]);return!0}}\n\nfunction verbsOf(commands){let codes=([typed])=>typed.replace(/ \\(.*|, whi\
ch .*/,\"\").split(\"`\").filter((_,at)=>at%2),lines=commands.flatMap(codes);return[...new Set(lines.map(line=\
>line.match(/^@?[a-z]+/)?.[0]).filter(Boolean))]}\nfunction withCode(text){return text.split(\"`\").map((part,\
at)=>at%2?element(\"code\",\"\",part):part)}\nfunction rowOf(cells){let row=element(\"tr\",\"\");for(let text \
of cells){let cell=element(\"td\",\"\");cell.append(...withCode(text));row.append(cell)}return row}\nfunction \
openHelp(dialog,body){if(!body.childElementCount)body.append(...COMMANDS.map(rowOf));dialog.showModal()}\n\nle\
t KEPT=\"seamountcup\",FORM=1,GIVEN_UP=600000;\nfunction keepInTab(value){try{sessionStorage.setItem(KEPT,JSON\
.stringify({form:FORM,...value}))}catch{return!1}return!0}\nfunction keptInTab(){try{let kept=JSON.parse(sessi\
onStorage.getItem(KEPT));sessionStorage.removeItem(KEPT);return kept?.form===FORM?kept:$}catch{return $}}\nfun\
ction saveFile(name,text){let link=document.createElement(\"a\");link.href=URL.createObjectURL(new Blob([text]\
,{type:\"text/plain\"}));link.download=name;link.click();setTimeout(()=>URL.revokeObjectURL(link.href),GIVEN_U\
P)}\nfunction recordOf({history,proofs,volume}){let text=checker.record(history.text,proofs.map(proof=>proof.t\
ext));return{name:`${volume > 1 ? `volume-${volume}-` : \"\"}record-${history.version}.txt`,text}}\n\nlet PLAC\
ES={guest:\"connect NAME\",player:\"say Hello\"},NAME=document.title,part=id=>document.getElementById(id),part\
s=(...ids)=>Object.fromEntries(ids.map(id=>[id,part(id)])),later=(task,wait)=>setTimeout(task,wait),kept=keptI\
nTab()??{},talk=new Conversation(kept.world&&World.from(kept.world)),{world}=talk,verbs=verbsOf(COMMANDS),log=\
new Log(parts(\"log\",\"entries\",\"fresh\",\"spoken\"),new Book()),map=new MapView({...parts(\"map\",\"canvas\
\",\"note\",\"floor\",\"up\",\"down\",\"larger\",\"smaller\",\"whole\",\"home\",\"words\",\"rooms\",\"more\"),\
window:part(\"picture\"),summary:part(\"map-name\")},askWay),link=new Connection({dial:()=>new WebSocket(locat\
ion.origin.replace(/^http/,\"ws\")+\"/play\"),now:()=>performance.now(),later,cancel:timer=>clearTimeout(timer\
),chance:Math.random,},{open:opened,text:heard,closed,state:showState}),hands=new Hands(parts(\"exits\",\"rout\
e\",\"told\",\"mark\",\"age\",\"again\",\"step\",\"all\",\"close\",\"line\"),world,verbs,{say:(line,answered)=\
>say(line,{answered}),since:entry=>talk.since(entry),arrived}),line=new Line(part(\"form\"),part(\"line\"),{se\
nd:text=>say(text),world,verbs,page:turnPage},kept.typed),checks=new Checks($,{ask:text=>new Promise(answered=\
>say(text,{quiet:!0,answered})||answered($)),later,now:()=>performance.now(),mark:entry=>(log.show(entry),hand\
s.soon()),});\nfunction say(text,{quiet=!1,isUnseen=!1,answered}={}){if(!link.isOn()){if(!quiet)log.tell(`not \
connected${part(\"line\").value ? \": your line waits\" : \"\"}`);return!1}if(!quiet&&!isUnseen)log.mine(text)\
;talk.say(text,quiet,answered);link.send(text);return!0}\nfunction askWay(room){say(`route to #${room}`)}\nfun\
ction arrived(){if(part(\"looks\").checked&&world.here!==lookedAt&&link.isOn())say(\"look\",{isUnseen:!0});loo\
kedAt=world.here}\nlet lookedAt,isBack=!1;\nfunction opened(){talk.begin();beginChecks();lookedAt=$;let{connec\
tLine}=talk;if(connectLine)isBack=say(connectLine,{answered:()=>(isBack=!1)})}\nfunction heard(text){let entri\
es=talk.take(text);for(let entry of entries)log.show(entry);takeAnswers();if(document.hidden)showUnread(entrie\
s.filter(({kind})=>kind!==\"greeting\").length);showWorld()}\nfunction beginChecks(){Object.assign(checks,{jud\
ge:new checker.Checker(),volume:talk.volume})}\nfunction offerProofs(volume,proofs){let task=()=>saveFile(`vol\
ume-${volume}-proofs.txt`,proofs.map(({text})=>text).join(\"\"));log.show({kind:\"page\",lines:[`volume ${volu\
me} has ended, proofs of it: ${proofs.length}`],mark:{kind:\"offer\",text:\"save them\",task}})}\nlet tasks=[]\
;\ntalk.onAnswer=entry=>tasks.push(()=>answered(entry));\ntalk.onEnd=(volume,proofs)=>{beginChecks();if(proofs\
.length)tasks.push(()=>offerProofs(volume,proofs))};\nfunction takeAnswers(){for(let task of tasks.splice(0))t\
ask()}\nfunction answered(entry){entry.answered?.(entry);if(entry.quiet||entry.kind!==\"reply\")return;let hea\
d=headOf(entry);if(head===\"welcome\")welcomed();else if(head===\"walked\"&&!hands.trip?.isRunning)arrived();i\
f(isLook(entry.line))lookedAt=world.here;hands.answered(entry);checks.answered(entry)}\nfunction welcomed(){pa\
rt(\"state\").textContent=stateText(\"on\");hands.trip=$;if(part(\"looks\").checked)say(\"look\",{isUnseen:!0}\
);if(document.activeElement===part(\"name\")||document.activeElement===document.body)part(\"line\").focus()}\n\
function closed({why,wasOpen,isLeft,code}){talk.end();takeAnswers();talk.drop();hands.stop();if(talk.hasLeft)O\
bject.assign(talk,{hasLeft:!1,connectLine:$,name:$});if(wasOpen||!closed.last||closed.last!==why)log.tell(isLe\
ft?\"you have left\":`disconnected: ${why}`);closed.last=wasOpen?$:why;if(!wasOpen&&code===1006)findOrigin();s\
howWorld()}\nasync function findOrigin(){let text;try{text=await(await fetch(\"/play\",{cache:\"no-store\"})).\
text()}catch{return}let origin=originIn(text),isOther=origin&&origin!==location.origin;if(isOther)link.stop();\
let told=isOther?`this world is played at ${origin}, and this page is at ${location.origin}: open it there`:`t\
he server does not let this page play: is ${location.origin} its own?`;if(closed.told!==told)log.tell(closed.t\
old=told)}\nfunction stateText(state){if(state===\"on\")return talk.isIn?`${talk.name} #${world.me}`:\"connect\
ed, no name yet\";return{dialing:\"connecting ..\",waiting:\"disconnected\",off:\"not connected\"}[state]}\nfu\
nction showState(state){part(\"state\").textContent=stateText(state);document.body.dataset.state=state;part(\"\
connect\").hidden=state===\"on\"||state===\"dialing\";showGuest();showWait()}\nfunction showWait(){let left=Ma\
th.ceil((link?.nextAt-performance.now())/1000);part(\"wait\").textContent=link?.state===\"waiting\"&&left>0?`,\
\x20next try in ${left} s`:\"\"}\nfunction showGuest(){let isGuest=link.isOn()&&!talk.isIn&&!isBack,wasGuest=!\
part(\"guest\").hidden;part(\"guest\").hidden=!isGuest;if(isGuest&&!wasGuest&&!part(\"line\").value)part(\"nam\
e\").focus();part(\"line\").placeholder=isGuest||!link.isOn()?PLACES.guest:PLACES.player}\nfunction showWorld(\
){link.hasLeft=talk.hasLeft;showGuest();map.show(world);hands.soon()}\nlet unread=0;\nfunction showUnread(more\
){unread=document.hidden?unread+more:0;document.title=unread?`(${unread}) ${NAME}`:NAME}\nfunction turnPage(wa\
y){part(\"log\").scrollBy({top:way*part(\"log\").clientHeight*0.8})}\nfunction fit(){let{height}=visualViewpor\
t;document.documentElement.style.setProperty(\"--tall\",`${height}px`);document.body.classList.toggle(\"keyed\
\",height<480&&innerWidth<832)}\nasync function save(){let needed=Math.max(0,...talk.proofs.map(({version})=>v\
ersion));if(!talk.history||talk.history.version<needed){let answer=await checks.act.ask(\"@history\");if(!answ\
er||headOf(answer)!==\"history\")return log.tell(`not saved: ${answer?.lines[0] ?? \"not connected\"}`)}let{na\
me,text}=recordOf(talk),count=talk.proofs.length;saveFile(name,text);let how=count===1?`mud_check < ${name}`:\
\"docs/CHECKER.md, Records, or Check a saved file in the menu\";log.tell(`saved ${name}, with ${count} ${count\
\x20=== 1 ? \"proof\" : \"proofs\"}. To check it: ${how}`)}\nasync function checkFile(file){if(!file)return;le\
t found=await new checker.Checker().judgeRecord(await file.text()),lines=found.map(({text,version,says})=>(ver\
sion?`[${version}] ${says}: `:\"\")+inWords(text));log.show({kind:\"page\",lines:[`${file.name}:`,...lines]})}\
\nfunction keep(){let settings=Object.fromEntries([\"looks\",\"checks\",\"times\"].map(id=>[id,part(id).checke\
d])),{connectLine,name,latest,volume}=talk;keepInTab({latest,volume,world:world.kept(),layout:map.layout.kept(\
),log:log.book.kept(),typed:line.earlier.lines,draft:part(\"line\").value,connectLine,name,settings,isOpen:par\
t(\"map\").open})}\nfunction restore(){let{layout,log:entries=[],connectLine,name,latest,volume=1,settings={},\
isOpen,draft=\"\"}=kept;if(layout)map.layout=Layout.from(layout);Object.assign(talk,{connectLine,name,latest,v\
olume});for(let[id,value]of Object.entries(settings))part(id).checked=value;for(let entry of entries)log.show(\
{...entry,isSilent:!0});if(entries.length)log.show({kind:\"page\",lines:[\"above: what this tab had before\"],\
isSilent:!0});part(\"line\").value=draft;part(\"map\").open=isOpen??matchMedia(\"(min-width: 52.01rem)\").matc\
hes}\nfunction listen(){on(part(\"connect\"),()=>link.connect());on(part(\"ask\"),()=>openHelp(part(\"help\"),\
part(\"commands\")));on(part(\"save\"),save);on(part(\"save-log\"),()=>saveFile(\"log.txt\",log.book.text()));\
on(part(\"file\"),({target})=>checkFile(target.files[0]).then(()=>(target.value=\"\")),\"change\");on(part(\"c\
hecks\"),({target})=>(checks.isAlways=target.checked),\"change\");on(part(\"times\"),showTimes,\"change\");on(\
part(\"guest\"),event=>{event.preventDefault();let name=typed(part(\"name\").value).trim();if(name)say(`connec\
t ${/ /.test(name) ? `\"${name}\"` : name}`)},\"submit\");on(window,()=>link.hurry(),\"online\");on(window,kee\
p,\"pagehide\");on(document,()=>{if(document.hidden)return keep();showUnread(0);link.hurry()},\"visibilitychan\
ge\");on(visualViewport,fit,\"resize\");setInterval(showWait,1000)}\nfunction showTimes(){document.body.classL\
ist.toggle(\"timed\",part(\"times\").checked)}\nrestore();\nlisten();\nchecks.isAlways=part(\"checks\").checke\
d;\nshowTimes();\nfit();\nmap.show(world);\nlink.connect();\n</script></body></html>\n";
